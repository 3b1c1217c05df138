//! The selectors of requests, and on which slices the inventory knows that they have no evaluation
//! error.

ghost use Rattle.std.specs.Prelude.{◌≡◌, ◌++◌, ◌||◌, true, IfOk, IfSome, OnOk};
ghost use Rattle.pool_view.specs.Names.{at_name};
ghost use Rattle.ready_objects.specs.Ready.{kind_selectors};
ghost use Rattle.request_rows.specs.Columns.{has_any};
ghost use Rattle.full_nodes.specs.Sure.{IsFullBy, IsFullOf, IsKnownOf, all_sure_at, are_sure, ask_texts, is_sure_at, kind_texts, known_of, requests_texts, some_texts, texts_of};

use crate::evaluating::is_sure;
use crate::full::{all_held, are_exclusive};
use api_claim::{DeviceRequest, RequestKind};
use api_slice::ResourceSlice;
use cluster::State;
use counter_sets::Held;
use device_selector::DeviceSelector;
use dra_values::{Seq, Text};
use pool_view::{DeviceRef, Inventory, KnownSlices};
use ready_objects::ReadyClaim;
use request_rows::{Classes, WantedClaim};
use std::alloc::{AllocError, Global};
use std::marker::Model;

/// The selectors of a request's class, and its own. Contracts see the texts of all.
#[derive(Drop)]
pub struct Selection<'a> {
    class: &'a [DeviceSelector],
    own: &'a [DeviceSelector],
}

impl<'a> Model for Selection<'a> {
    ghost use Rattle.std.specs.Prelude.{◌++◌, List, ℕ};

    ghost Value = { List (List ℕ) };

    ghost view = { λ s. s.class.now ++ s.own.now };
}

impl<'a> Selection<'a> {
    /// What the inventory knows of them.
    pub fn known_in<'b>(&self, inventory: &'b Inventory) -> Option<KnownSlices<'b>>
        ensures { IfSome result (λ k. k ≡ record { slices = inventory.now.slices; texts = self.now }) }
    {
        inventory.known(self.class, self.own)
    }

    /// Finds out whether they have an evaluation error on the slice of a name, and lets the inventory keep
    /// it; does nothing if no slice has that name. `AllocError` only if memory runs out.
    pub fn learn(
        &self,
        alloc: Global,
        inventory: &mut Inventory,
        slice: &Text,
    ) -> Result<(), AllocError>
        ensures { inventory.new ≡ inventory.old }
    {
        let Some(stored) = inventory.slices().get(slice) else {
            return Ok(());
        };
        let sure = is_sure(alloc, self.class, self.own, &stored.object)?;
        inventory.learn(alloc, self.class, self.own, slice, sure)
    }
}

/// The selectors of each request of the claims that has any, but for requests with alternatives.
pub fn selections_of<'a>(
    alloc: Global,
    classes: &'a Classes,
    claims: &[WantedClaim<'a>],
) -> Result<Seq<Selection<'a>>, AllocError>
    ensures { IfOk result (λ selections. selections ≡ texts_of classes.now claims.now) }
{
    let mut selections = Seq::empty(alloc);
    for wanted in claims {
        add_claim(&mut selections, classes, wanted.claim)?;
    }
    Ok(selections)
}

fn add_claim<'a>(
    selections: &mut Seq<Selection<'a>>,
    classes: &'a Classes,
    claim: &'a ReadyClaim,
) -> Result<(), AllocError>
    ensures { OnOk result (selections.new ≡ selections.old ++ requests_texts classes.now claim.now.requests) }
{
    let own = claim.selectors();
    let requests = claim.claim().requests.as_slice();
    for at in 0..requests.len() {
        add_request(selections, classes, &requests[at], own[at].as_slice())?;
    }
    Ok(())
}

fn add_request<'a>(
    selections: &mut Seq<Selection<'a>>,
    classes: &'a Classes,
    request: &DeviceRequest,
    own: &'a [Seq<DeviceSelector>],
) -> Result<(), AllocError>
    requires { own.now ≡ kind_selectors request.now.kind }
    ensures { OnOk result (selections.new ≡ selections.old ++ kind_texts classes.now request.now.kind) }
{
    match &request.kind {
        RequestKind::Exactly(exactly) => {
            add_asked(selections, classes, &exactly.ask.class, own[0].as_slice())
        }
        RequestKind::FirstAvailable(_) => Ok(()),
    }
}

/// Adds the selectors of a class, if it exists, with a request's own.
fn add_asked<'a>(
    selections: &mut Seq<Selection<'a>>,
    classes: &'a Classes,
    class: &Text,
    own: &'a [DeviceSelector],
) -> Result<(), AllocError>
    ensures { OnOk result (selections.new ≡ selections.old ++ ask_texts (at_name classes.now class.now) own.now) }
{
    match classes.get(class) {
        None => Ok(()),
        Some(class) => add_some(selections, class.object.selectors(), own),
    }
}

/// Adds the selectors of a class with a request's own, if there are any.
fn add_some<'a>(
    selections: &mut Seq<Selection<'a>>,
    class: &'a [DeviceSelector],
    own: &'a [DeviceSelector],
) -> Result<(), AllocError>
    ensures { OnOk result (selections.new ≡ selections.old ++ some_texts class.now own.now) }
{
    if has_some(class, own) {
        selections.push(Selection { class, own })?;
    }
    Ok(())
}

fn has_some(class: &[DeviceSelector], own: &[DeviceSelector]) -> bool
    ensures { result ≡ (has_any class.now || has_any own.now) }
{
    !class.is_empty() || !own.is_empty()
}

/// What the inventory knows of the selectors of claims, each of whose requests is exclusive; `None` if
/// one isn't, or if nothing is known of some request's selectors.
pub fn known_for<'a>(
    alloc: Global,
    state: &'a State,
    claims: &[WantedClaim<'a>],
) -> Result<Option<Seq<KnownSlices<'a>>>, AllocError>
    ensures { IfOk result (λ known. IfSome known (IsKnownOf state.now.inventory.slices state.now.classes claims.now)) }
{
    if !are_exclusive(claims) {
        return Ok(None);
    }
    let selections = selections_of(alloc, &state.classes, claims)?;
    known_of(alloc, &state.inventory, selections.as_slice())
}

fn known_of<'a>(
    alloc: Global,
    inventory: &'a Inventory,
    selections: &[Selection],
) -> Result<Option<Seq<KnownSlices<'a>>>, AllocError>
    ensures { IfOk result (λ known. IfSome known (λ list. list ≡ known_of inventory.now.slices selections.now)) }
{
    let mut known = Seq::empty(alloc);
    for selection in selections {
        match selection.known_in(inventory) {
            None => return Ok(None),
            Some(slices) => known.push(slices)?,
        }
    }
    Ok(Some(known))
}

/// Whether a claim holds each of the devices, and no selector has an evaluation error on one by what is
/// known.
pub fn is_full(known: &Option<Seq<KnownSlices>>, devices: &[DeviceRef], holders: &Held) -> bool
    ensures { result ≡ true → IsFullBy holders.now devices.now known.now }
{
    match known {
        None => false,
        Some(known) => is_full_by(known.as_slice(), devices, holders),
    }
}

fn is_full_by(known: &[KnownSlices], devices: &[DeviceRef], holders: &Held) -> bool
    ensures { result ≡ true → IsFullOf holders.now devices.now known.now }
{
    // Claims get the first devices that fit, so a node that has a free one mostly has it last.
    let last = devices.len().saturating_sub(1);
    all_held(&devices[last..], holders) && all_held(devices, holders) && are_sure(known, devices)
}

/// Whether each list is known to have no evaluation error on the slices of the devices. Each slice is
/// looked up once for its devices that follow each other.
#[tactic(auto, unfolding(crate::specs::Sure::are_sure))]
fn are_sure(known: &[KnownSlices], devices: &[DeviceRef]) -> bool
    ensures { result ≡ true → are_sure known.now devices.now ≡ true }
{
    match devices.first() {
        None => true,
        Some(device) => {
            let slice = device.slice();
            all_sure_at(known, &slice.name) && are_sure_from(known, devices, slice)
        }
    }
}

#[tactic(auto, unfolding(crate::specs::Sure::are_sure))]
fn are_sure_from<'a>(
    known: &[KnownSlices],
    devices: &[DeviceRef<'a>],
    slice: &'a ResourceSlice,
) -> bool
    requires { all_sure_at known.now slice.now.name ≡ true }
    ensures { result ≡ true → are_sure known.now devices.now ≡ true }
{
    let mut before = slice;
    for device in devices {
        let slice = device.slice();
        if !stay_sure(known, &before.name, &slice.name) {
            return false;
        }
        before = slice;
    }
    true
}

/// Whether each list is known to have no evaluation error on a slice, where it is so for the one before.
fn stay_sure(known: &[KnownSlices], before: &Text, slice: &Text) -> bool
    requires { all_sure_at known.now before.now ≡ true }
    ensures { result ≡ true → all_sure_at known.now slice.now ≡ true }
{
    before == slice || all_sure_at(known, slice)
}

fn all_sure_at(known: &[KnownSlices], slice: &Text) -> bool
    ensures { result ≡ true → all_sure_at known.now slice.now ≡ true }
{
    for list in known {
        if !is_sure_at(list, slice) {
            return false;
        }
    }
    true
}

fn is_sure_at(known: &KnownSlices, slice: &Text) -> bool
    ensures { result ≡ true → is_sure_at slice.now known.now ≡ true }
{
    match known.is_sure(slice) {
        None => false,
        Some(sure) => sure,
    }
}
