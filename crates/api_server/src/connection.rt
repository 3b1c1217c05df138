ghost use Rattle.std.specs.Prelude.{◌≡◌, ◌≤◌, ◌<◌, ◌+◌, ℕ, false, List, Option, Some, IfOk, IfNone, IfSome};
ghost use Rattle.turn_lock.specs.Known.{IsFree, IsOf, Known};
ghost use Rattle.cluster.specs.declared.entry.Entry.{Entry};
ghost use Rattle.http_wire.specs.Replies.{reply_bytes};
ghost use Rattle.api_server.specs.Connections.{Connected, OnWay, Refusing, Sends, Serving, Stopping, broken, closed_if, refused_end};
ghost use Rattle.api_server.specs.EndCauses.{HasEndCause, HasStepCause, HasStopCause, is_fault};
ghost use Rattle.http_wire.specs.Reader.{Answers, HasReadCause, count_after, message, remaining};
ghost use Rattle.http_wire.specs.Requests.{IsRequest};

use crate::end::ConnEnd;
use crate::service::Service;
use crate::{Unreplied, serve_request};
use api_replies::refused;
use api_routes::Unserved;
use dra_ports::{Conn, Gate};
use engine_ports::Engine;
use http_wire::{Reply, Request, RequestReader, WireError, requests_lie_in_order, write_reply};
use sched_job::Ledger;
use std::alloc::Global;
use std::sync::Wait;
use turn_lock::{Pass, TurnLock};

/// How many jobs a connection may have: its number times this and the request's number is that of the request's job.
const JOBS: u64 = 65_536;

/// Serves the requests of a connection, one after another, until it ends.
///
/// A create, an update, a delete, a status write, a Schedule or a Release is a job, whose number is 65,536 times the
/// connection's number plus the request's, from 1; what is to be shown is the state in one turn of the lock. The
/// lock is held neither while a request is read or parsed, nor while a search runs, nor while a reply is made or
/// written. `number` is from 1 to 65,535, and no other call works on the connection's jobs.
///
/// `Closed` is returned after the last request, `Wire` if a request couldn't be read or a reply not be written: a
/// request that isn't well formed, has no length or is too long is replied to before. `Full` is returned if the
/// history has its limit of entries and a request needs one more, and `Memory` if memory runs out. A fault is the end
/// only if the connection's error count rose in this call, or is at its last value; with every other end the count
/// does not change.
pub fn serve_connection<E: Engine, R: Wait, C: Conn, G: Gate>(
    rt: &R,
    alloc: Global,
    lock: &TurnLock<Ledger>,
    pass: &mut Pass<Ledger>,
    conn: &mut C,
    number: u64,
    gate: &G,
    budget: u64,
    attempts: u64,
) -> ConnEnd
    requires of { IsOf lock.now pass.old }
    requires free { IsFree pass.old }
    requires number { (0 < number) × (number ≤ 65535) }
    requires attempts { 0 < attempts }
    ensures of { IsOf lock.now pass.new }
    ensures free { IsFree pass.new }
    ensures connected { Connected (record { number = number; budget = budget; attempts = attempts }) pass.old pass.new (C.left conn.old) (C.left conn.new) (C.written conn.old) (C.written conn.new) result }
    ensures cause { HasEndCause (C.Source.faults conn.old) (C.Source.faults conn.new) result }
{
    let service = Service {
        number,
        budget,
        attempts,
    };
    let mut reader = RequestReader::new(alloc);
    for index in 1..JOBS {
        let end = go_on::<E, _, _, _>(
            rt,
            alloc,
            lock,
            pass,
            conn,
            gate,
            service,
            &mut reader,
            index,
        );
        if let Some(end) = end {
            return end;
        }
    }
    ConnEnd::Closed
}

/// Reads the next request and serves it. Returns how the connection ended, if it did.
fn go_on<E: Engine, R: Wait, C: Conn, G: Gate>(
    rt: &R,
    alloc: Global,
    lock: &TurnLock<Ledger>,
    pass: &mut Pass<Ledger>,
    conn: &mut C,
    gate: &G,
    service: Service,
    reader: &mut RequestReader,
    index: u64,
) -> Option<ConnEnd>
    requires of { IsOf lock.now pass.old }
    requires free { IsFree pass.old }
    requires number { service.number ≤ 65535 }
    requires index { index ≤ 65535 }
    requires attempts { 0 < service.attempts }
    ensures of { IsOf lock.now pass.new }
    ensures free { IsFree pass.new }
    ensures on { IfNone result ((began : Known Entry) (l w : Option (List ℕ)) →
        OnWay service began pass.old l (remaining reader.old.ahead (C.left conn.old)) w (C.written conn.old) index reader.old.taken → OnWay service began pass.new l (remaining reader.new.ahead (C.left conn.new)) w (C.written conn.new) (index + 1) reader.new.taken) }
    ensures over { IfSome result (λ e. (began : Known Entry) (l w : Option (List ℕ)) →
        OnWay service began pass.old l (remaining reader.old.ahead (C.left conn.old)) w (C.written conn.old) index reader.old.taken → Connected service began pass.new l (C.left conn.new) w (C.written conn.new) e) }
    ensures cause { HasStepCause (C.Source.faults conn.old) (C.Source.faults conn.new) result }
{
    requests_lie_in_order();
    match hear(alloc, reader, conn) {
        Ok(found) => match found {
            Some(request) => serve::<E, _, _, _>(
                rt, alloc, lock, pass, conn, gate, service, &request, index,
            ),
            None => Some(ConnEnd::Closed),
        },
        Err(error) => Some(stop(alloc, conn, error)),
    }
}

/// The next request of a connection. What was written to it is unchanged.
fn hear<C: Conn>(
    alloc: Global,
    reader: &mut RequestReader,
    conn: &mut C,
) -> Result<Option<Request>, WireError>
    ensures answers { Answers (IsRequest reader.old.taken) reader.old.ahead reader.new.ahead (C.left conn.old) (C.left conn.new) result }
    ensures counts { IfOk result (λ found. reader.new.taken ≡ count_after reader.old.taken found) }
    ensures written { C.written conn.new ≡ C.written conn.old }
    ensures cause { HasReadCause (C.Source.faults conn.old) (C.Source.faults conn.new) result }
{
    reader.read_request(alloc, conn)
}

/// Serves a request and writes the reply.
fn serve<E: Engine, R: Wait, C: Conn, G: Gate>(
    rt: &R,
    alloc: Global,
    lock: &TurnLock<Ledger>,
    pass: &mut Pass<Ledger>,
    conn: &mut C,
    gate: &G,
    service: Service,
    request: &Request,
    index: u64,
) -> Option<ConnEnd>
    requires of { IsOf lock.now pass.old }
    requires free { IsFree pass.old }
    requires number { service.number ≤ 65535 }
    requires index { index ≤ 65535 }
    requires attempts { 0 < service.attempts }
    ensures of { IsOf lock.now pass.new }
    ensures free { IsFree pass.new }
    ensures left { C.left conn.new ≡ C.left conn.old }
    ensures serving { Serving service index (message request.now) pass.old pass.new (C.written conn.old) (C.written conn.new) result }
    ensures cause { HasStepCause (C.Sink.faults conn.old) (C.Sink.faults conn.new) result }
{
    let job = service.number * JOBS + index;
    let replied = serve_request::<E, _, _>(
        rt,
        alloc,
        lock,
        pass,
        gate,
        job,
        service.budget,
        service.attempts,
        request,
    );
    match replied {
        Ok(reply) => send(alloc, conn, &reply, request.last),
        Err(Unreplied::Full(count)) => Some(ConnEnd::Full(count)),
        Err(Unreplied::Memory) => Some(ConnEnd::Memory),
    }
}

/// Writes a reply. Returns how the connection ended, if it did.
fn send<C: Conn>(alloc: Global, conn: &mut C, reply: &Reply, last: bool) -> Option<ConnEnd>
    ensures sends { Sends (C.written conn.old) (C.written conn.new) (reply_bytes reply.now) last result }
    ensures cause { HasStepCause (C.Sink.faults conn.old) (C.Sink.faults conn.new) result }
    ensures left { C.left conn.new ≡ C.left conn.old }
{
    match write_reply(alloc, conn, reply) {
        Ok(()) => closed_if(last),
        Err(error) => Some(broken(error)),
    }
}

/// That the connection ends after its last request.
fn closed_if(last: bool) -> Option<ConnEnd>
    ensures { result ≡ closed_if last }
{
    if last { Some(ConnEnd::Closed) } else { None }
}

/// How a connection ends that failed.
fn broken(error: WireError) -> ConnEnd
    ensures { result ≡ broken error }
{
    match error {
        WireError::Memory => ConnEnd::Memory,
        WireError::BadHead
        | WireError::NoLength
        | WireError::TooLong
        | WireError::EndedEarly
        | WireError::ReadFault
        | WireError::WriteFault => ConnEnd::Wire(error),
    }
}

/// Ends a connection whose next request couldn't be read: writes the reply to a request that is refused.
fn stop<C: Conn>(alloc: Global, conn: &mut C, error: WireError) -> ConnEnd
    ensures left { C.left conn.new ≡ C.left conn.old }
    ensures stopping { Stopping error (C.written conn.old) (C.written conn.new) result }
    ensures cause { HasStopCause error (C.Sink.faults conn.old) (C.Sink.faults conn.new) result }
{
    match error {
        WireError::BadHead => refuse(alloc, conn, Unserved::BadRequest, error),
        WireError::NoLength => refuse(alloc, conn, Unserved::LengthRequired, error),
        WireError::TooLong => refuse(alloc, conn, Unserved::RequestEntityTooLarge, error),
        WireError::EndedEarly | WireError::ReadFault | WireError::WriteFault | WireError::Memory =>
            broken(error),
    }
}

fn refuse<C: Conn>(alloc: Global, conn: &mut C, why: Unserved, error: WireError) -> ConnEnd
    requires plain { is_fault (ConnEnd.Wire error) ≡ false }
    ensures left { C.left conn.new ≡ C.left conn.old }
    ensures refusing { Refusing why error (C.written conn.old) (C.written conn.new) result }
    ensures cause { HasEndCause (C.Sink.faults conn.old) (C.Sink.faults conn.new) result }
{
    let Ok(reply) = refused(alloc, why) else {
        return ConnEnd::Memory;
    };
    refused_end(error, send(alloc, conn, &reply, true))
}

/// How a connection ends after the reply to a request that couldn't be read, by how that was written.
fn refused_end(error: WireError, sent: Option<ConnEnd>) -> ConnEnd
    ensures { result ≡ refused_end error sent }
{
    match sent {
        None => ConnEnd::Closed,
        Some(end) => match end {
            ConnEnd::Closed => ConnEnd::Wire(error),
            ConnEnd::Wire(_) | ConnEnd::Full(_) | ConnEnd::Memory => end,
        },
    }
}
