ghost use Rattle.std.specs.Prelude.{◌≡◌, [], Err, IfErr, IsErrOf, Ok, OnErr, OnOk, Some, if◌then◌else◌};
ghost use Rattle.dra_ports.specs.Causes.{HasCause};
ghost use Rattle.dra_ports.specs.Memory.{after_call as after_count, fails_next, new_plan};
ghost use Rattle.dra_ports.specs.declared.error.PortError.TheVariants.{Failed, Memory};
ghost use Rattle.prepare_core.specs.Calls.{after_call};
ghost use Rattle.prepare_core.specs.Told.{calls_of, driver_plan};
ghost use Rattle.prepare_core.specs.declared.driver.CallKind.TheVariants as kinds;

use crate::{CallKind, ClaimForNode, Driver, DriverCall};
use dra_ports::{Failures, PortError};
use std::alloc::Global;

/// A driver in memory, which prepares nothing and keeps the calls that it got.
#[derive(Drop)]
pub struct MemDriver {
    alloc: Global,
    calls: Vec<DriverCall>,
    failures: Failures,
}

impl MemDriver {
    /// A driver that got no calls. The calls whose numbers, from 1, are in `failing` fail. Allocates nothing.
    pub fn new(alloc: Global, failing: Vec<u64>) -> MemDriver
        ensures calls { calls_of result ≡ [] }
        ensures plan { driver_plan result ≡ new_plan failing.items }
    {
        MemDriver {
            alloc,
            calls: Vec::new(alloc),
            failures: Failures::new(failing),
        }
    }

    /// The calls that it got, the first of them first, but for those that returned `Memory`.
    pub fn calls(&self) -> &[DriverCall]
        ensures { result.now ≡ calls_of self.now }
    {
        &self.calls
    }

    /// Keeps a call, and fails if its number is in the list of those that fail.
    fn called(&mut self, kind: CallKind, claim: &ClaimForNode) -> Result<(), PortError>
        ensures calls { calls_of self.new ≡ after_call kind claim.now result (calls_of self.old) }
        ensures cause { HasCause (driver_plan self.old).faults (driver_plan self.new).faults result }
        ensures fails { (IsErrOf result Memory → ⊥) → result ≡ (if fails_next (driver_plan self.old) then Err Failed else Ok tt) }
        ensures plan { (IsErrOf result Memory → ⊥) → driver_plan self.new ≡ after_count (driver_plan self.old) }
    {
        self.calls.reserve(1)?;
        let claim = claim.copy(self.alloc)?;
        let fails = self.failures.next_fails();
        self.calls.push_reserved(DriverCall {
            kind,
            claim,
            ok: !fails,
        });
        if fails {
            Err(PortError::Failed)
        } else {
            Ok(())
        }
    }
}

/// A call whose number is in the list of those that fail returns `Failed`. Each other call succeeds, except when it is
/// out of memory: then nothing changes, and the call isn't counted.
impl Driver for MemDriver {
    ghost use Rattle.std.specs.Prelude.{Some};
    ghost use Rattle.prepare_core.specs.Told.{calls_of, driver_plan};

    ghost calls = { λ d. Some (calls_of d) };

    ghost faults = { λ d. (driver_plan d).faults };

    fn prepare(&mut self, claim: &ClaimForNode) -> Result<(), PortError>
        ensures calls { Some (calls_of self.new) ≡ Some (after_call kinds.Prepare claim.now result (calls_of self.old)) }
        ensures cause { HasCause (driver_plan self.old).faults (driver_plan self.new).faults result }
        ensures fails { (IsErrOf result Memory → ⊥) → result ≡ (if fails_next (driver_plan self.old) then Err Failed else Ok tt) }
        ensures plan { (IsErrOf result Memory → ⊥) → driver_plan self.new ≡ after_count (driver_plan self.old) }
    {
        self.called(CallKind::Prepare, claim)
    }

    fn unprepare(&mut self, claim: &ClaimForNode) -> Result<(), PortError>
        ensures calls { Some (calls_of self.new) ≡ Some (after_call kinds.Unprepare claim.now result (calls_of self.old)) }
        ensures cause { HasCause (driver_plan self.old).faults (driver_plan self.new).faults result }
        ensures fails { (IsErrOf result Memory → ⊥) → result ≡ (if fails_next (driver_plan self.old) then Err Failed else Ok tt) }
        ensures plan { (IsErrOf result Memory → ⊥) → driver_plan self.new ≡ after_count (driver_plan self.old) }
    {
        self.called(CallKind::Unprepare, claim)
    }
}
