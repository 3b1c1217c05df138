ghost use Rattle.std.specs.Prelude.{◌≡◌, map, IfOk, option_copied};
ghost use Rattle.request_rows.specs.Columns.{columns_for, parts_in, selectors_of};

use crate::wants::{Classes, Wants};
use crate::ways::Way;
use device_match::{Selection, Verdicts};
use device_selector::DeviceSelector;
use dra_values::{Seq, Shared};
use pool_view::{DeviceRef, Match, Stored};
use ready_objects::ReadyClass;
use std::alloc::{AllocError, Global};

fn selectors_of(class: Option<&Stored<Shared<ReadyClass>>>) -> Option<&[DeviceSelector]>
    ensures { option_copied result ≡ selectors_of (option_copied class.entry) }
{
    match class {
        None => None,
        Some(class) => Some(class.object.selectors()),
    }
}

fn selection_of<'a>(classes: &'a Classes, way: &Way<'a>) -> Selection<'a>
    ensures { result ≡ parts_in classes.now way.now }
{
    Selection {
        class: selectors_of(classes.get(&way.ask.class)),
        own: way.own,
    }
}

/// The class's selectors and the own ones of each way.
fn selections_of<'a>(
    alloc: Global,
    classes: &'a Classes,
    ways: &[Way<'a>],
) -> Result<Vec<Selection<'a>>, AllocError>
    ensures { IfOk result (λ v. v.items ≡ map (parts_in classes.now) ways.now) }
{
    let mut selections = Vec::with_capacity(alloc, ways.len())?;
    for way in ways {
        selections.push(selection_of(classes, way))?;
    }
    Ok(selections)
}

/// What each way evaluates to for each device.
pub fn columns_for(
    alloc: Global,
    wants: &Wants,
    ways: &[Way],
    devices: &[DeviceRef],
    verdicts: &mut Verdicts,
) -> Result<Seq<Seq<Match>>, AllocError>
    ensures { IfOk result (λ columns. columns ≡ columns_for wants.now.classes ways.now devices.now) }
{
    let selections = selections_of(alloc, wants.classes, ways)?;
    verdicts.columns(alloc, &selections, devices)
}
