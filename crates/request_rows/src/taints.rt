ghost use Rattle.std.specs.Prelude.{◌≡◌, map, option_copied, IfOk};
ghost use Rattle.std.specs.List.{list_any};
ghost use Rattle.request_rows.specs.Taints.{flag_at, flag_got, if_tainted, is_tainted, tolerates_device};

use api_claim::DeviceAsk;
use device_taints::are_tolerated;
use dra_values::Seq;
use pool_view::DeviceRef;
use std::alloc::{AllocError, Global};

fn is_tainted(device: &DeviceRef) -> bool
    ensures { result ≡ is_tainted device.now }
{
    !device.device().taints.as_slice().is_empty()
}

fn any_tainted(devices: &[DeviceRef]) -> bool
    ensures { result ≡ list_any is_tainted devices.now }
{
    for device in devices {
        if is_tainted(device) {
            return true;
        }
    }
    false
}

/// The devices, if one of them has a taint; else none, since each request tolerates all of them.
pub fn tainted_devices<'a>(devices: &'a [DeviceRef<'a>]) -> &'a [DeviceRef<'a>]
    ensures { result.now ≡ if_tainted devices.now }
{
    if any_tainted(devices) { devices } else { &[] }
}

fn tolerates_device(ask: &DeviceAsk, device: &DeviceRef) -> bool
    ensures { result ≡ tolerates_device ask.now device.now }
{
    are_tolerated(
        ask.tolerations.as_slice(),
        device.device().taints.as_slice(),
    )
}

/// Whether each taint of a device is tolerated, for each of the devices.
pub fn tolerated_of(
    alloc: Global,
    ask: &DeviceAsk,
    devices: &[DeviceRef],
) -> Result<Seq<bool>, AllocError>
    ensures { IfOk result (λ flags. flags ≡ map (tolerates_device ask.now) devices.now) }
{
    let mut flags = Seq::empty(alloc);
    for device in devices {
        flags.push(tolerates_device(ask, device))?;
    }
    Ok(flags)
}

/// The flag if there is one, else true.
fn flag_got(found: Option<&bool>) -> bool
    ensures { result ≡ flag_got (option_copied found.entry) }
{
    match found {
        None => true,
        Some(tolerated) => *tolerated,
    }
}

/// The flag of the device at a position.
pub fn flag_at(flags: &Seq<bool>, position: usize) -> bool
    ensures { result ≡ flag_at flags.now position }
{
    flag_got(flags.as_slice().get(position))
}
