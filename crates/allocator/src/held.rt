ghost use Rattle.std.specs.Prelude.{◌≡◌, ◌<◌, length, IfOk};
ghost use Rattle.allocator.specs.Holding.{flags_of, held_among, held_at};

use api_slice::ResourceSlice;
use counter_sets::{Held, HeldInPool};
use pool_view::DeviceRef;
use std::alloc::{AllocError, Global};
use std::marker::Model;

/// Which devices of a node are held, looked up once.
///
/// Contracts see the devices of the node, and those of them that are held, each with its claim.
#[derive(Drop)]
pub struct HeldDevices<'a> {
    devices: &'a [DeviceRef<'a>],
    holders: &'a Held,
    flags: Vec<bool>,
}

impl<'a> Model for HeldDevices<'a> {
    ghost use Rattle.std.specs.Prelude.{◌≡◌};
    ghost use Rattle.allocator.specs.Holding.{Holders, flags_of, held_among};

    ghost Value = { Holders };

    ghost view = { λ h. record { devices = h.devices.now; held = held_among h.holders.now h.devices.now } };

    ghost invariant = { λ h. h.flags.items ≡ flags_of h.holders.now h.devices.now };
}

fn pool_of<'a>(holders: &'a Held, slice: &'a ResourceSlice) -> HeldInPool<'a>
    ensures { result ≡ record { holders = holders.now; driver = slice.now.driver; pool = slice.now.pool.name } }
{
    holders.in_pool(slice.driver.as_text(), &slice.pool.name)
}

/// Whether a claim holds each of the devices.
fn flags_of(alloc: Global, devices: &[DeviceRef], holders: &Held) -> Result<Vec<bool>, AllocError>
    ensures { IfOk result (λ flags. flags.items ≡ flags_of holders.now devices.now) }
{
    match devices.first() {
        None => Ok(Vec::new(alloc)),
        Some(device) => flags_from(alloc, devices, pool_of(holders, device.slice())),
    }
}

/// The same; a pool is looked up once for its devices that follow each other.
fn flags_from<'a>(
    alloc: Global,
    devices: &[DeviceRef<'a>],
    pool: HeldInPool<'a>,
) -> Result<Vec<bool>, AllocError>
    ensures { IfOk result (λ flags. flags.items ≡ flags_of pool.entry.holders devices.now) }
{
    let mut pool = pool;
    let mut flags = Vec::with_capacity(alloc, devices.len())?;
    for device in devices {
        let slice = device.slice();
        pool = pool.or_in_pool(slice.driver.as_text(), &slice.pool.name);
        flags.push(pool.at(&device.device().name).is_some())?;
    }
    Ok(flags)
}

impl<'a> HeldDevices<'a> {
    /// Looks each of the devices up. `AllocError` only if memory runs out.
    pub fn of(
        alloc: Global,
        devices: &'a [DeviceRef<'a>],
        holders: &'a Held,
    ) -> Result<HeldDevices<'a>, AllocError>
        ensures { IfOk result (λ h. h ≡ record { devices = devices.now; held = held_among holders.now devices.now }) }
    {
        Ok(HeldDevices {
            devices,
            holders,
            flags: flags_of(alloc, devices, holders)?,
        })
    }

    /// Whether a claim holds the device at a position.
    pub fn is_held(&self, position: usize) -> bool
        requires { position < length self.now.devices }
        ensures { result ≡ held_at self.now position }
    {
        self.flags[position]
    }
}
