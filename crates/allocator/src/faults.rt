ghost use Rattle.request_rows.specs.Wanted.{input_of};
ghost use Rattle.std.specs.Prelude.{◌≡◌, Some, option_map, IfOk};
ghost use Rattle.walk.specs.Walk.{Faulty};
ghost use Rattle.request_rules.specs.Faults.{fault_of};
ghost use Rattle.request_rules.specs.Problem.{shape_of};
ghost use Rattle.request_rows.specs.Seen.{fault_seen};
ghost use Rattle.allocator.specs.Answered as answered;

use cluster::SelectorFault;
use request_rows::{FaultPlace, Rows};
use request_rules::faults_are_first;
use std::alloc::{AllocError, Global};

fn selector_fault(fault: FaultPlace) -> SelectorFault
    ensures { result ≡ answered.selector_fault (fault_seen fault) }
{
    SelectorFault {
        claim: fault.claim,
        request: fault.request,
        selector: fault.selector,
        device: fault.device,
        cause: fault.cause,
    }
}

/// The selector error of a choice that has one.
pub fn fault_at(alloc: Global, rows: &Rows, choice: &[usize]) -> Result<SelectorFault, AllocError>
    requires { shape_of (input_of rows.now) choice.now ≡ Faulty }
    ensures { IfOk result (λ fault. option_map answered.selector_fault (fault_of (input_of rows.now) choice.now) ≡ Some fault) }
{
    faults_are_first();
    match rows.fault_of(alloc, choice)? {
        Some(fault) => Ok(selector_fault(fault)),
        None => unreachable!(),
    }
}
