ghost use Rattle.turn_lock.specs.Known.{Known};

use dra_ports::Gate;
use std::sync::Wait;
use turn_lock::{Pass, Recorded};

/// Work that one thread does with a pass of a lock over a `T`.
///
/// A job holds what it works on, the lock too, and can be moved to another thread, as its end can.
pub trait Job<T: Recorded>: Drop + Send {
    /// Its result.
    type End: Drop + Send;

    /// What it needs of itself and its pass.
    ghost needs: { Self → Known T.Entry → Type 0 };

    /// What then holds: of the job, the pass as it was, the end, and the pass as it is.
    ghost gives: { Self → Known T.Entry → Self.End → Known T.Entry → Type 0 };

    /// Does the work, and calls the gate at each point that it reaches.
    fn run<R: Wait, G: Gate>(self, rt: &R, gate: &G, pass: &mut Pass<T>) -> Self::End
        requires { needs self pass.old }
        ensures { gives self pass.old result pass.new };
}
