ghost use Rattle.std.specs.Prelude.{◌≡◌, ◌<◌, ◌≤◌, ◌^◌};
ghost use Rattle.dra_ports.specs.Causes.{Rose};
ghost use Rattle.api_server.specs.Serving.{PrintsSo};

use crate::laws::{connections_make_entries, replies_stand_in_order};
use crate::options::{ServeOptions, ServeStatus};
use crate::printing::print;
use crate::server::serve_all;
use door_ports::Doors;
use dra_ports::{Gate, Sink};
use engine_ports::Engine;
use http_wire::requests_lie_in_order;
use sched_job::Ledger;
use std::sync::Wait;
use std::thread::Threads;

/// Serves the connections to an address over a new ledger, and prints what came of it.
///
/// Each worker has a door and a thread of its own, as far as threads can be started, and serves the connections of its
/// door one after another: worker i of n, from 0, the connections i + 1, i + 1 + n and so on. A request that is a command
/// is a job, numbered 65,536 times its connection's number plus its own, from 1. The doors are closed again, whatever
/// happens. The gate is called as the jobs go on.
///
/// With `Done` the lines of the history were printed, and then the summary, which counts its jobs. Each entry is of the job
/// of a request, each of these jobs was run to its end, and the replies to the requests of each connection stand in the
/// history in order. What is written to a connection that hasn't failed is all replies. With `Limit` the lines alone were
/// printed, and the job of a request that was read isn't ended. With `Memory` and `Write` at most a prefix of such a text was
/// printed, and with `Door` nothing. If workers ended for several reasons, `Memory` is returned before `Door`, and `Door`
/// before `Limit`.
///
/// `Write` and `Door` are returned only if the count of errors of the output, or that of the doors, rose in this call or is
/// at its maximum, and `Memory` only if memory runs out. With every status but `Write` the output's count is unchanged, and
/// with every one but `Door` and `Memory` the doors'.
pub fn serve<
    E: Engine + Send,
    R: AllocGlobal + Threads + Wait + Sync,
    K: Sink,
    O: Doors,
    G: Gate + Sync,
>(
    rt: &R,
    address: &str,
    options: ServeOptions,
    output: &mut K,
    doors: &mut O,
    gate: &G,
) -> ServeStatus
    requires workers { (0 < options.workers) × (options.workers ≤ 64) }
    requires connections { options.connections ≤ 65535 }
    requires attempts { 0 < options.attempts }
    requires entries { options.entries < 2 ^ 48 }
    ensures prints { PrintsSo options (O.served doors.old) (O.served doors.new) (O.ended doors.old) (O.ended doors.new) (K.written output.old) (K.written output.new) result }
    ensures write { result ≡ ServeStatus.Write → Rose (K.faults output.old) (K.faults output.new) }
    ensures faultless_output { (result ≡ ServeStatus.Write → ⊥) → K.faults output.new ≡ K.faults output.old }
    ensures door { result ≡ ServeStatus.Door → Rose (O.faults doors.old) (O.faults doors.new) }
    ensures later_doors { O.faults doors.old ≤ O.faults doors.new }
    ensures faultless_doors { (result ≡ ServeStatus.Door → ⊥) → (result ≡ ServeStatus.Memory → ⊥) → O.faults doors.new ≡ O.faults doors.old }
{
    connections_make_entries();
    replies_stand_in_order();
    requests_lie_in_order();
    let alloc = rt.alloc();
    let Ok(ledger) = Ledger::new(alloc, options.entries) else {
        return ServeStatus::Memory;
    };
    let (ledger, end) = serve_all::<E, _, _, _>(rt, alloc, doors, address, ledger, options, gate);
    print(alloc, &ledger, end, output)
}
