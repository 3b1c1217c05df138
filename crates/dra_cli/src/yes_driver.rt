ghost use Rattle.std.specs.Prelude.{◌≡◌};

use dra_ports::PortError;
use prepare_core::{ClaimForNode, Driver};

/// A driver that returns `Ok` to each call, and does nothing. It doesn't expose its calls, and never fails.
#[derive(Clone, Copy, Debug, PartialEq, Eq, Drop)]
pub struct YesDriver {
    faults: u64,
}

impl YesDriver {
    /// A driver that got no calls.
    pub fn new() -> YesDriver
        ensures { result.faults ≡ 0 }
    {
        YesDriver { faults: 0 }
    }
}

impl Driver for YesDriver {
    ghost use Rattle.std.specs.Prelude.{None};

    ghost calls = { λ d. None };

    ghost faults = { λ d. d.faults };

    fn prepare(&mut self, _claim: &ClaimForNode) -> Result<(), PortError> {
        Ok(())
    }

    fn unprepare(&mut self, _claim: &ClaimForNode) -> Result<(), PortError> {
        Ok(())
    }
}
