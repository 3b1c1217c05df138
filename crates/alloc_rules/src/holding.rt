//! Whether the devices of results are held.

ghost use Rattle.std.specs.Prelude.{◌≡◌, ◌++◌, ◌∷◌, [], List, None, IfOk, OnOk, map, option_copied};
ghost use Rattle.object_fields.specs.declared.key.DeviceId.{DeviceId};
ghost use Rattle.object_fields.specs.declared.key.Key.{Key};
ghost use Rattle.counter_sets.specs.Holding.{AreHeld, holder_in};
ghost use Rattle.request_rules.specs.Input.{SearchInput};
ghost use Rattle.request_rules.specs.Lists.{or_else};
ghost use Rattle.alloc_rules.specs.Rows.{due_seen, held_among, held_in, pairs_of};
ghost use Rattle.plan_rules.specs.Standing as spec;

use crate::due::Due;
use cluster::Failure;
use counter_sets::Held;
use object_fields::{DeviceId, Key};
use std::alloc::{AllocError, Global};

/// The claim that holds a device, or else the one that has it by the plan.
fn holder_among<'a>(holders: &'a Held, own: &'a Held, device: &DeviceId) -> Option<&'a Key>
    ensures { option_copied result ≡ or_else (holder_in holders.now device.now) (holder_in own.now device.now) }
{
    match holders.holder(device) {
        Some(holder) => Some(holder),
        None => own.holder(device),
    }
}

/// The failure of a result without admin access whose device is held, or which an earlier result has;
/// else its claim has the device.
fn hold(
    alloc: Global,
    holders: &Held,
    own: &mut Held,
    due: &Due,
) -> Result<Option<Failure>, AllocError>
    ensures found { (w : SearchInput) → IfOk result (λ found. found ≡ held_among holders.now own.old (due_seen w due.now)) }
    ensures pairs { (w : SearchInput) (pairs : List (DeviceId × Key)) → AreHeld own.old pairs → IfOk result (λ found. found ≡ None → AreHeld own.new (pairs ++ pairs_of (due_seen w due.now ∷ []))) }
{
    if due.result.admin {
        return Ok(None);
    }
    let device = &due.result.device;
    if let Some(holder) = holder_among(holders, own, device) {
        return Ok(Some(Failure::Held {
            device: device.copy(alloc)?,
            claim: holder.copy(alloc)?,
        }));
    }
    own.insert(device, due.claim.copy(alloc)?, alloc)?;
    Ok(None)
}

/// The failure of the first result without admin access whose device a claim holds, or an earlier
/// result has.
pub fn held(alloc: Global, holders: &Held, dues: &[Due]) -> Result<Option<Failure>, AllocError>
    ensures { (w : SearchInput) (pairs : List (DeviceId × Key)) → AreHeld holders.now pairs → IfOk result (λ found. found ≡ spec.held pairs (map (due_seen w) dues.now)) }
{
    let mut own = Held::new(alloc)?;
    for due in dues {
        if let Some(found) = hold(alloc, holders, &mut own, due)? {
            return Ok(Some(found));
        }
    }
    Ok(None)
}
