//! Whether selectors have an evaluation error on a slice.

ghost use Rattle.std.specs.Prelude.{◌≡◌, ◌++◌, IfOk};
ghost use Rattle.pool_view.specs.Known.{has_error, is_sure, is_sure_of};

use api_slice::{Device, DriverName, ResourceSlice};
use device_match::{device_env, match_both};
use device_selector::DeviceSelector;
use pool_view::Match;
use std::alloc::{AllocError, Global};

fn has_error(found: &Match) -> bool
    ensures { result ≡ has_error found.now }
{
    match found {
        Match::Yes => false,
        Match::No => false,
        Match::Fault { place: _, cause: _ } => true,
    }
}

/// Whether the selectors of a class and then of a request have no evaluation error on a device of the driver.
fn is_sure_of(
    alloc: Global,
    class: &[DeviceSelector],
    own: &[DeviceSelector],
    driver: &DriverName,
    device: &Device,
) -> Result<bool, AllocError>
    ensures { IfOk result (λ sure. sure ≡ is_sure_of (class.now ++ own.now) driver.now device.now) }
{
    let device = device_env(alloc, driver, &device.properties)?;
    let found = match_both(alloc, class, own, &device)?;
    Ok(!has_error(&found))
}

/// Whether the selectors of a class and then of a request have no evaluation error on any device of a slice.
/// Ends at the first device on which they have one.
#[tactic(auto, unfolding(pool_view::specs::Known::is_sure))]
pub fn is_sure(
    alloc: Global,
    class: &[DeviceSelector],
    own: &[DeviceSelector],
    slice: &ResourceSlice,
) -> Result<bool, AllocError>
    ensures { IfOk result (λ sure. sure ≡ is_sure (class.now ++ own.now) slice.now) }
{
    for device in slice.devices.as_slice() {
        if !is_sure_of(alloc, class, own, &slice.driver, device)? {
            return Ok(false);
        }
    }
    Ok(true)
}
