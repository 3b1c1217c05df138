ghost use Rattle.std.specs.Prelude.{◌≡◌, ◌<◌, ◌++◌, Some, true, IfOk, IfSome, OnOk, map, vec_len};
ghost use Rattle.cel_value.specs.Device.{Device};
ghost use Rattle.pool_view.specs.Match.{match_from};
ghost use Rattle.device_match.specs.Selected.{device_in, says};
ghost use Rattle.device_match.specs.True.{AreTrue, IsTrue};

use crate::matching::match_both;
use crate::same::{are_attributes, are_quantities, are_texts, entries_of, texts_of};
use crate::selection::{Selection, env_of};
use api_slice::Attribute;
use device_selector::DeviceSelector;
use dra_values::{Seq, Text};
use object_fields::QualName;
use pool_view::{DeviceRef, Match};
use quantity::Quantity;
use std::alloc::{AllocError, Global};
use std::marker::Model;

/// What the selectors of a class and then those of a request evaluate to on a device.
#[derive(Drop)]
pub struct KnownMatch {
    pub class: Seq<Text>,
    pub own: Seq<Text>,
    pub found: Match,
}

/// A device, and what is known of selectors on it, which contracts don't see.
#[derive(Drop)]
pub struct KnownDevice {
    driver: Text,
    attributes: Seq<(QualName, Attribute)>,
    capacity: Seq<(QualName, Quantity)>,
    matches: Vec<Option<KnownMatch>>,
}

impl Model for KnownDevice {
    ghost use Rattle.cel_value.specs.Device.{Device, coded_device};
    ghost use Rattle.pool_view.specs.Devices.{device_of};
    ghost use Rattle.device_match.specs.True.{AreTrue};

    ghost Value = { Device };

    ghost coded = { coded_device };

    ghost view = { λ k. device_of k.driver (record { attributes = k.attributes; capacity = k.capacity }) };

    ghost invariant = { λ k. AreTrue (device_of k.driver (record { attributes = k.attributes; capacity = k.capacity })) k.matches.items };
}

impl KnownDevice {
    /// A device of which nothing is known yet. `AllocError` only if memory runs out.
    pub fn of(alloc: Global, device: &DeviceRef) -> Result<KnownDevice, AllocError>
        ensures { IfOk result (λ known. known ≡ device_in device.now) }
    {
        let slice = device.slice();
        let properties = &device.device().properties;
        let driver = slice.driver.as_text().copy(alloc)?;
        let attributes = entries_of(alloc, properties.attributes())?;
        let capacity = entries_of(alloc, properties.capacity())?;
        Ok(KnownDevice {
            driver,
            attributes,
            capacity,
            matches: Vec::new(alloc),
        })
    }

    /// Whether it is this device, to selectors. Allocates nothing.
    pub fn is(&self, device: &DeviceRef) -> bool
        ensures { result ≡ true → self.now ≡ device_in device.now }
    {
        let slice = device.slice();
        let properties = &device.device().properties;
        self.driver == *slice.driver.as_text()
            && are_attributes(self.attributes.as_slice(), properties.attributes())
            && are_quantities(self.capacity.as_slice(), properties.capacity())
    }

    /// What selectors are known to evaluate to, looked for at this number alone. Allocates nothing.
    fn known(
        &self,
        number: usize,
        class: &[DeviceSelector],
        own: &[DeviceSelector],
    ) -> Option<Match>
        ensures { IfSome result (λ m. m ≡ match_from self.now 0 (class.now ++ own.now)) }
    {
        match self.matches.get(number) {
            Some(Some(known)) => known_for(known, class, own),
            Some(None) | None => None,
        }
    }

    /// What selectors evaluate to on the device, which is kept at this number. `AllocError` only if memory
    /// runs out.
    fn learned(
        &mut self,
        alloc: Global,
        number: usize,
        class: &[DeviceSelector],
        own: &[DeviceSelector],
        device: &DeviceRef,
    ) -> Result<Match, AllocError>
        requires { self.old ≡ device_in device.now }
        ensures found { IfOk result (λ m. m ≡ match_from self.old 0 (class.now ++ own.now)) }
        ensures same { self.new ≡ self.old }
    {
        let known = evaluated(alloc, class, own, device)?;
        let found = known.found;
        put(&mut self.matches, number, known)?;
        Ok(found)
    }

    /// What a selection evaluates to on the device: what is known at this number, or else it is evaluated.
    /// `AllocError` only if memory runs out.
    fn matched(
        &mut self,
        alloc: Global,
        number: usize,
        selection: &Selection,
        device: &DeviceRef,
    ) -> Result<Match, AllocError>
        requires { self.old ≡ device_in device.now }
        ensures found { IfOk result (λ m. m ≡ says self.old selection.now) }
        ensures same { self.new ≡ self.old }
    {
        match selection.class {
            None => Ok(Match::No),
            Some(class) => match self.known(number, class, selection.own) {
                Some(found) => Ok(found),
                None => self.learned(alloc, number, class, selection.own, device),
            },
        }
    }
}

/// What is known, if it is of these selectors.
fn known_for(known: &KnownMatch, class: &[DeviceSelector], own: &[DeviceSelector]) -> Option<Match>
    ensures { IfSome result (λ m. (d : Device) → IsTrue d known.now → m ≡ match_from d 0 (class.now ++ own.now)) }
{
    if are_texts(known.class.as_slice(), class) && are_texts(known.own.as_slice(), own) {
        Some(known.found)
    } else {
        None
    }
}

/// What selectors evaluate to on a device, with their texts.
fn evaluated(
    alloc: Global,
    class: &[DeviceSelector],
    own: &[DeviceSelector],
    device: &DeviceRef,
) -> Result<KnownMatch, AllocError>
    ensures found { IfOk result (λ known. known.found ≡ match_from (device_in device.now) 0 (class.now ++ own.now)) }
    ensures is_true { IfOk result (IsTrue (device_in device.now)) }
{
    let device = env_of(alloc, device)?;
    let found = match_both(alloc, class, own, &device)?;
    Ok(KnownMatch {
        class: texts_of(alloc, class)?,
        own: texts_of(alloc, own)?,
        found,
    })
}

/// Makes numbers of which nothing is known, up to one.
fn make_numbers(matches: &mut Vec<Option<KnownMatch>>, number: usize) -> Result<(), AllocError>
    ensures same { (d : Device) → AreTrue d matches.old.items → AreTrue d matches.new.items }
    ensures room { OnOk result (number < vec_len matches.new) }
{
    while matches.len() <= number {
        matches.push(None)?;
    }
    Ok(())
}

/// Puts what is known at a number, in place of what was there.
fn put(
    matches: &mut Vec<Option<KnownMatch>>,
    number: usize,
    known: KnownMatch,
) -> Result<(), AllocError>
    ensures { (d : Device) → AreTrue d matches.old.items → IsTrue d known → AreTrue d matches.new.items }
{
    make_numbers(matches, number)?;
    matches[number] = Some(known);
    Ok(())
}

/// Makes it known which device is there, if it isn't this one.
fn make_known(
    alloc: Global,
    known: &mut Option<KnownDevice>,
    device: &DeviceRef,
) -> Result<(), AllocError>
    ensures { OnOk result (known.new ≡ Some (device_in device.now)) }
{
    if !is_known(known, device) {
        *known = Some(KnownDevice::of(alloc, device)?);
    }
    Ok(())
}

fn is_known(known: &Option<KnownDevice>, device: &DeviceRef) -> bool
    ensures { result ≡ true → known.now ≡ Some (device_in device.now) }
{
    match known {
        None => false,
        Some(known) => known.is(device),
    }
}

/// What selections evaluate to on a device, with what is known of the device that is there.
pub fn column_of(
    alloc: Global,
    known: &mut Option<KnownDevice>,
    numbers: &[usize],
    selections: &[Selection],
    device: &DeviceRef,
) -> Result<Seq<Match>, AllocError>
    ensures { IfOk result (λ column. column ≡ map (says (device_in device.now)) selections.now) }
{
    make_known(alloc, known, device)?;
    match known {
        None => Err(AllocError),
        Some(known) => column_by(alloc, known, numbers, selections, device),
    }
}

/// The same, if the device that is there is this one.
pub fn column_if(
    alloc: Global,
    known: &mut Option<KnownDevice>,
    numbers: &[usize],
    selections: &[Selection],
    device: &DeviceRef,
) -> Result<Option<Seq<Match>>, AllocError>
    ensures { IfOk result (λ found. IfSome found (λ column. column ≡ map (says (device_in device.now)) selections.now)) }
{
    match known {
        None => Ok(None),
        Some(known) => {
            if known.is(device) {
                let column = column_by(alloc, known, numbers, selections, device)?;
                Ok(Some(column))
            } else {
                Ok(None)
            }
        }
    }
}

fn column_by(
    alloc: Global,
    known: &mut KnownDevice,
    numbers: &[usize],
    selections: &[Selection],
    device: &DeviceRef,
) -> Result<Seq<Match>, AllocError>
    requires { known.old ≡ device_in device.now }
    ensures { IfOk result (λ column. column ≡ map (says (device_in device.now)) selections.now) }
{
    let mut column = Seq::with_capacity(alloc, selections.len())?;
    for at in 0..selections.len() {
        let number = number_at(numbers, at);
        column.push(known.matched(alloc, number, &selections[at], device)?)?;
    }
    Ok(column)
}

fn number_at(numbers: &[usize], at: usize) -> usize {
    match numbers.get(at) {
        None => 0,
        Some(number) => *number,
    }
}
