//! The counters of slices, and what their held devices draw.

ghost use Rattle.std.specs.Prelude.{[], IfOk};
ghost use Rattle.pool_totals.specs.Adding.{AreUndrawn, HasRoom, IsAdding};

use api_slice::ResourceSlice;
use counter_sets::{Held, Totals};
use dra_values::Shared;
use std::alloc::{AllocError, Global};

/// The counters of slices, from which nothing is drawn.
pub fn undrawn(alloc: Global, slices: &[Shared<ResourceSlice>]) -> Result<Totals, AllocError>
    ensures { IfOk result (AreUndrawn slices.now) }
{
    let mut totals = Totals::new(alloc);
    for slice in slices {
        let slice = slice.value();
        totals.add_slice(slice, alloc)?;
    }
    Ok(totals)
}

/// Adds what the held devices of slices draw. The counters from which they draw were added.
pub fn add_held(totals: &mut Totals, slices: &[Shared<ResourceSlice>], holders: &Held)
    requires { HasRoom holders.now slices.now totals.old }
    ensures { IsAdding holders.now slices.now [] totals.old totals.new }
{
    for slice in slices {
        let slice = slice.value();
        totals.add_held(slice, holders);
    }
}
