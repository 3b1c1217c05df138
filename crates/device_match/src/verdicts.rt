ghost use Rattle.std.specs.Prelude.{◌≡◌, ◌<◌, map, IfOk, IfSome, OnOk, vec_len};
ghost use Rattle.device_match.specs.Selected.{device_in, says};

use crate::known::{KnownDevice, column_if, column_of};
use crate::places::{Place, Places, Texts, numbers_of};
use crate::selection::{Selection, any_selectors, evaluated_columns, plain_columns};
use dra_values::Seq;
use pool_view::{DeviceRef, Match};
use std::alloc::{AllocError, Global};

/// The most lists of selectors of which something is remembered.
const MOST_SELECTIONS: usize = 64;

/// What selectors were found to evaluate to on devices. It is relied on only for a device with the same driver,
/// attributes and capacities and for selectors of the same texts, so it stays right whatever happens to objects.
#[derive(Drop)]
pub struct Verdicts {
    /// Whether something is remembered at all.
    remembers: bool,
    texts: Vec<Texts>,
    places: Places,
    devices: Vec<Option<KnownDevice>>,
}

impl Verdicts {
    /// Nothing is remembered yet. Allocates nothing.
    pub fn new(alloc: Global) -> Verdicts {
        Verdicts {
            remembers: true,
            texts: Vec::new(alloc),
            places: Places::new(alloc),
            devices: Vec::new(alloc),
        }
    }

    /// Nothing is remembered, now or later. Allocates nothing.
    pub fn forgetful(alloc: Global) -> Verdicts {
        Verdicts {
            remembers: false,
            texts: Vec::new(alloc),
            places: Places::new(alloc),
            devices: Vec::new(alloc),
        }
    }

    /// What each selection evaluates to on each device; No if its class doesn't exist. A selector that was evaluated
    /// on such a device before mostly isn't again. `AllocError` only if memory runs out.
    pub fn columns(
        &mut self,
        alloc: Global,
        selections: &[Selection],
        devices: &[DeviceRef],
    ) -> Result<Seq<Seq<Match>>, AllocError>
        ensures { IfOk result (λ columns. columns ≡ map (λ o. map (says (device_in o)) selections.now) devices.now) }
    {
        if !any_selectors(selections) {
            plain_columns(alloc, selections, devices)
        } else if self.remembers {
            self.known_columns(alloc, selections, devices)
        } else {
            evaluated_columns(alloc, selections, devices)
        }
    }

    fn known_columns(
        &mut self,
        alloc: Global,
        selections: &[Selection],
        devices: &[DeviceRef],
    ) -> Result<Seq<Seq<Match>>, AllocError>
        ensures { IfOk result (λ columns. columns ≡ map (λ o. map (says (device_in o)) selections.now) devices.now) }
    {
        if self.places.are_over() || self.texts.len() > MOST_SELECTIONS {
            self.forget(alloc);
        }
        let numbers = numbers_of(alloc, &mut self.texts, selections)?;
        columns_by(
            alloc,
            &mut self.places,
            &mut self.devices,
            &numbers,
            selections,
            devices,
        )
    }

    fn forget(&mut self, alloc: Global) {
        self.texts.clear();
        self.places = Places::new(alloc);
        self.devices.clear();
    }
}

fn columns_by(
    alloc: Global,
    places: &mut Places,
    known: &mut Vec<Option<KnownDevice>>,
    numbers: &[usize],
    selections: &[Selection],
    devices: &[DeviceRef],
) -> Result<Seq<Seq<Match>>, AllocError>
    ensures { IfOk result (λ columns. columns ≡ map (λ o. map (says (device_in o)) selections.now) devices.now) }
{
    let mut columns = Seq::with_capacity(alloc, devices.len())?;
    let mut place = Place::none();
    for at in 0..devices.len() {
        place = places.place(alloc, devices, at, place)?;
        let device = &devices[at];
        columns.push(column_at(alloc, places, known, place, numbers, selections, device)?)?;
    }
    Ok(columns)
}

/// What selections evaluate to on the device at a place, with what is known at its position.
fn column_at(
    alloc: Global,
    places: &mut Places,
    known: &mut Vec<Option<KnownDevice>>,
    place: Place,
    numbers: &[usize],
    selections: &[Selection],
    device: &DeviceRef,
) -> Result<Seq<Match>, AllocError>
    ensures { IfOk result (λ column. column ≡ map (says (device_in device.now)) selections.now) }
{
    let position = places.position(place);
    match column_kept(alloc, known, position, numbers, selections, device)? {
        Some(column) => Ok(column),
        None => {
            let position = places.find(alloc, place, device)?;
            column_found(alloc, known, position, numbers, selections, device)
        }
    }
}

/// What selections evaluate to on a device, if it is the one at a position.
fn column_kept(
    alloc: Global,
    known: &mut Vec<Option<KnownDevice>>,
    position: usize,
    numbers: &[usize],
    selections: &[Selection],
    device: &DeviceRef,
) -> Result<Option<Seq<Match>>, AllocError>
    ensures { IfOk result (λ found. IfSome found (λ column. column ≡ map (says (device_in device.now)) selections.now)) }
{
    if position >= known.len() {
        return Ok(None);
    }
    let known = &mut known[position];
    column_if(alloc, known, numbers, selections, device)
}

/// What selections evaluate to on a device, which is then the one at a position.
fn column_found(
    alloc: Global,
    known: &mut Vec<Option<KnownDevice>>,
    position: usize,
    numbers: &[usize],
    selections: &[Selection],
    device: &DeviceRef,
) -> Result<Seq<Match>, AllocError>
    ensures { IfOk result (λ column. column ≡ map (says (device_in device.now)) selections.now) }
{
    make_room(known, position)?;
    let known = &mut known[position];
    column_of(alloc, known, numbers, selections, device)
}

/// Makes positions at which nothing is known, up to one.
fn make_room(known: &mut Vec<Option<KnownDevice>>, position: usize) -> Result<(), AllocError>
    ensures { OnOk result (position < vec_len known.new) }
{
    while known.len() <= position {
        known.push(None)?;
    }
    Ok(())
}
