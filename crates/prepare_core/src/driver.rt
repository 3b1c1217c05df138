ghost use Rattle.std.specs.Prelude.{◌≡◌, ℕ, List};
ghost use Rattle.std.specs.declared.option.Option.{Option};
ghost use Rattle.std.specs.Option.{option_map};
ghost use Rattle.dra_ports.specs.Causes.{HasCause};
ghost use Rattle.prepare_core.specs.Calls.{after_call};
ghost use Rattle.prepare_core.specs.declared.driver.CallKind.TheVariants as kinds;
ghost use Rattle.prepare_core.specs.declared.driver.DriverCall.{DriverCall};

use crate::ClaimForNode;
use dra_ports::PortError;

/// What a driver is asked.
#[derive(Clone, Copy, Debug, PartialEq, Eq)]
pub enum CallKind {
    /// To prepare a claim's devices.
    Prepare,
    /// To take them back.
    Unprepare,
}

/// A call that a driver got.
#[derive(Debug, PartialEq, Eq, Drop)]
pub struct DriverCall {
    /// What it was asked.
    pub kind: CallKind,
    /// The claim.
    pub claim: ClaimForNode,
    /// Whether it returned `Ok`; if not, it returned `Failed`.
    pub ok: bool,
}

/// What prepares the devices of claims on the node, as a DRA driver's plugin does. Both calls may be repeated for a
/// claim, also after a crash.
///
/// A call returns `Failed` only if the count of errors rose in it, or is at its maximum, and `Memory` only if out of
/// memory. After `Memory` nothing was done. With every result but `Failed` the count is unchanged.
pub trait Driver {
    /// The calls that it got, but for those that returned `Memory`, the first of them first, if the driver exposes
    /// them.
    ghost calls: { Self → Option (List DriverCall) };

    /// How often it has failed. This never falls, and stays at 2^64-1 once it is there.
    ghost faults: { Self → ℕ };

    /// Prepares the devices of a claim.
    fn prepare(&mut self, claim: &ClaimForNode) -> Result<(), PortError>
        ensures calls { calls self.new ≡ option_map (after_call kinds.Prepare claim.now result) (calls self.old) }
        ensures cause { HasCause (faults self.old) (faults self.new) result };

    /// Takes the devices of a claim back.
    fn unprepare(&mut self, claim: &ClaimForNode) -> Result<(), PortError>
        ensures calls { calls self.new ≡ option_map (after_call kinds.Unprepare claim.now result) (calls self.old) }
        ensures cause { HasCause (faults self.old) (faults self.new) result };
}
