ghost use Rattle.std.specs.Prelude.{◌≡◌, [], map, IfOk, option_copied};
ghost use Rattle.std.specs.List.{list_any};
ghost use Rattle.pool_view.specs.Devices.{device_of};
ghost use Rattle.device_match.specs.Selected.{device_in, has_selectors, plain_match, says, texts_in};

use crate::device::device_env;
use crate::matching::match_both;
use cel_value::DeviceEnv;
use device_selector::DeviceSelector;
use dra_values::Seq;
use pool_view::{DeviceRef, Match};
use std::alloc::{AllocError, Global};
use std::marker::Model;

/// The selectors of a class, if it exists, and those of a request.
#[derive(Drop)]
pub struct Selection<'a> {
    pub class: Option<&'a [DeviceSelector]>,
    pub own: &'a [DeviceSelector],
}

impl<'a> Model for Selection<'a> {
    ghost use Rattle.std.specs.Prelude.{option_copied};
    ghost use Rattle.device_match.specs.Selected.{SelectionTexts};

    ghost Value = { SelectionTexts };

    ghost view = { λ s. record { class = option_copied s.class; own = s.own.now } };
}

fn texts_in<'a>(class: Option<&'a [DeviceSelector]>) -> &'a [DeviceSelector]
    ensures { result.now ≡ texts_in (option_copied class.entry) }
{
    match class {
        None => &[],
        Some(class) => class,
    }
}

/// Whether there is a selector to evaluate.
fn has_selectors(selection: &Selection) -> bool
    ensures { result ≡ has_selectors selection.now }
{
    !selection.own.is_empty() || !texts_in(selection.class).is_empty()
}

pub fn any_selectors(selections: &[Selection]) -> bool
    ensures { result ≡ list_any has_selectors selections.now }
{
    for selection in selections {
        if has_selectors(selection) {
            return true;
        }
    }
    false
}

/// What no selectors evaluate to: Yes, and No if the class doesn't exist.
fn plain_match(selection: &Selection) -> Match
    ensures { result ≡ plain_match selection.now }
{
    match selection.class {
        None => Match::No,
        Some(_) => Match::Yes,
    }
}

fn plain_column(alloc: Global, selections: &[Selection]) -> Result<Seq<Match>, AllocError>
    ensures { IfOk result (λ column. column ≡ map plain_match selections.now) }
{
    let mut column = Seq::with_capacity(alloc, selections.len())?;
    for selection in selections {
        column.push(plain_match(selection))?;
    }
    Ok(column)
}

/// The columns where there is no selector to evaluate.
pub fn plain_columns(
    alloc: Global,
    selections: &[Selection],
    devices: &[DeviceRef],
) -> Result<Seq<Seq<Match>>, AllocError>
    ensures { IfOk result (λ columns. columns ≡ map (λ _. map plain_match selections.now) devices.now) }
{
    let mut columns = Seq::with_capacity(alloc, devices.len())?;
    for _device in devices {
        columns.push(plain_column(alloc, selections)?)?;
    }
    Ok(columns)
}

/// What the selectors evaluate to for a device; No if the class doesn't exist.
fn match_one(alloc: Global, selection: &Selection, device: &DeviceEnv) -> Result<Match, AllocError>
    ensures { IfOk result (λ m. m ≡ says device.now selection.now) }
{
    match selection.class {
        None => Ok(Match::No),
        Some(class) => match_both(alloc, class, selection.own, device),
    }
}

fn match_each(
    alloc: Global,
    selections: &[Selection],
    device: &DeviceEnv,
) -> Result<Seq<Match>, AllocError>
    ensures { IfOk result (λ column. column ≡ map (says device.now) selections.now) }
{
    let mut column = Seq::with_capacity(alloc, selections.len())?;
    for selection in selections {
        column.push(match_one(alloc, selection, device)?)?;
    }
    Ok(column)
}

/// The device as selectors see it.
pub fn env_of(alloc: Global, device: &DeviceRef) -> Result<DeviceEnv, AllocError>
    ensures { IfOk result (λ d. d ≡ device_in device.now) }
{
    let slice = device.slice();
    let offered = device.device();
    device_env(alloc, &slice.driver, &offered.properties)
}

fn match_device(
    alloc: Global,
    selections: &[Selection],
    device: &DeviceRef,
) -> Result<Seq<Match>, AllocError>
    ensures { IfOk result (λ column. column ≡ map (says (device_in device.now)) selections.now) }
{
    let device = env_of(alloc, device)?;
    match_each(alloc, selections, &device)
}

/// The columns where each selector is evaluated.
pub fn evaluated_columns(
    alloc: Global,
    selections: &[Selection],
    devices: &[DeviceRef],
) -> Result<Seq<Seq<Match>>, AllocError>
    ensures { IfOk result (λ columns. columns ≡ map (λ o. map (says (device_in o)) selections.now) devices.now) }
{
    let mut columns = Seq::with_capacity(alloc, devices.len())?;
    for device in devices {
        columns.push(match_device(alloc, selections, device)?)?;
    }
    Ok(columns)
}
