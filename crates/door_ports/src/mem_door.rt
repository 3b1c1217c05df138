ghost use Rattle.std.specs.Prelude.{◌≡◌, ◌+◌, ◌<◌, ◌≤◌, vec_capacity, vec_len};

use crate::script::Script;
use crate::{Accepted, Door, MemInput};
use dra_ports::{MemConn, PortError};
use dra_values::Shared;
use std::alloc::{AllocError, Global};

/// A door of [`MemDoors`](crate::MemDoors). It exposes the connections that have ended at it.
#[derive(Drop)]
pub struct MemDoor {
    alloc: Global,
    script: Shared<Script>,
    next: u128,
    step: usize,
    last: u64,
    in_service: usize,
    ended: Vec<Accepted<MemConn>>,
    faults: u64,
    ghost begun: { vec_len ended + in_service < next },
    ghost room: { vec_len ended + in_service ≤ vec_capacity ended },
    ghost held: { vec_len script.inputs ≤ vec_capacity ended },
    ghost moves: { 0 < step },
}

impl MemDoor {
    ghost use Rattle.std.specs.Prelude.{IfOk, option_copied};
    ghost use Rattle.dra_ports.specs.Causes.{HasCause};
    ghost use Rattle.door_ports.specs.MemDoors.{Connects, IsNewDoor, coming};

    /// Door `at` of `n`, from 0, with room for as many connections as there are inputs.
    pub(crate) fn new(
        alloc: Global,
        script: Shared<Script>,
        at: usize,
        n: usize,
        connections: u64,
    ) -> Result<MemDoor, AllocError>
        requires { at < n }
        ensures { IfOk result (λ d. IsNewDoor script at n connections d) }
    {
        let ended = Vec::with_capacity(alloc, script.inputs.len())?;
        Ok(MemDoor {
            alloc,
            script,
            next: at as u128 + 1,
            step: n,
            last: connections,
            in_service: 0,
            ended,
            faults: 0,
        })
    }

    /// The input of the next connection, which has this number, unless its acceptance is to fail or
    /// there is no such input.
    fn coming(&self, number: u64) -> Option<&MemInput>
        requires { number ≡ self.now.next }
        ensures { option_copied result ≡ coming self.now }
    {
        if self.script.fails(number.saturating_add(1)) {
            return None;
        }
        self.script.input(number)
    }

    /// The next connection, which has this number.
    fn connect(&mut self, number: u64) -> Result<MemConn, PortError>
        requires { number ≡ self.old.next }
        ensures answer { Connects (coming self.old) result }
        ensures cause { HasCause self.old.faults self.new.faults result }
        ensures same { self.new ≡ record self.old { faults = self.new.faults } }
    {
        let Some(input) = self.coming(number) else {
            self.faults = self.faults.saturating_add(1);
            return Err(PortError::Failed);
        };
        input.connect(self.alloc)
    }

    /// How often it has failed.
    pub(crate) fn count(&self) -> u64
        ensures { result ≡ self.now.faults }
    {
        self.faults
    }

    /// The connections that have ended at it, in order.
    pub(crate) fn visits(&self) -> &[Accepted<MemConn>]
        ensures { result.now ≡ self.now.ended.items }
    {
        &self.ended
    }
}

impl Door for MemDoor {
    ghost use Rattle.std.specs.Prelude.{◌↔◌, [], ◌∷◌, ◌++◌, IfErr, IfOk, IfSome, IsErrOf, IsOk, OnErr, OnOk, Some, map, slice_get};
    ghost use Rattle.std.specs.Bool.{IsTrue};
    ghost use Rattle.dra_ports.specs.Causes.{HasCause};
    ghost use Rattle.dra_ports.specs.Conn.{conn_left, conn_plan, conn_written};
    ghost use Rattle.dra_ports.specs.declared.error.PortError.TheVariants.{Failed, Memory};
    ghost use Rattle.door_ports.specs.MemDoors.{Accepts, coming, door_share, mem_ended, mem_ending};
    ghost use Rattle.door_ports.specs.Shares.{IsLeft, advanced};

    type Conn = MemConn;

    ghost share = { λ d. door_share d };

    ghost in_service = { λ d. d.in_service };

    ghost served = { λ d. vec_len d.ended };

    ghost ended = { λ d. Some (mem_ended d) };

    ghost faults = { λ d. d.faults };

    /// Fails if and only if 1 + the connection's number is among the calls that are to fail, or there is
    /// no input with this number. With another error it is out of memory.
    fn accept(&mut self) -> Result<Accepted<MemConn>, PortError>
        requires left { IsLeft (door_share self.old) }
        ensures number { IfOk result (λ a. a.number ≡ (door_share self.old).next) }
        ensures start { IfOk result (λ a. a.start ≡ a.conn) }
        ensures unwritten { IfOk result (λ a. conn_written a.conn ≡ []) }
        ensures faultless { IfOk result (λ a. (conn_plan a.conn).faults ≡ 0) }
        ensures next { OnOk result (door_share self.new ≡ advanced (door_share self.old)) }
        ensures given { OnOk result (self.new.in_service ≡ self.old.in_service + 1) }
        ensures same_next { OnErr result (door_share self.new ≡ door_share self.old) }
        ensures same_given { OnErr result (self.new.in_service ≡ self.old.in_service) }
        ensures same_served { vec_len self.new.ended ≡ vec_len self.old.ended }
        ensures same_ended { mem_ended self.new ≡ mem_ended self.old }
        ensures cause { HasCause self.old.faults self.new.faults result }
        ensures answer { Accepts (coming self.old) result }
        ensures script { self.new.script ≡ self.old.script }
    {
        let number = self.next as u64;
        let conn = self.connect(number)?;
        self.next += self.step as u128;
        self.in_service += 1;
        Ok(Accepted::new(number, conn))
    }

    fn end(&mut self, conn: Accepted<MemConn>)
        requires accepted { 0 < self.old.in_service }
        ensures ended { mem_ended self.new ≡ mem_ended self.old ++ mem_ending conn ∷ [] }
        ensures served { vec_len self.new.ended ≡ vec_len self.old.ended + 1 }
        ensures taken { self.new.in_service + 1 ≡ self.old.in_service }
        ensures share { door_share self.new ≡ door_share self.old }
        ensures faults { self.new.faults ≡ self.old.faults }
        ensures script { self.new.script ≡ self.old.script }
    {
        self.in_service -= 1;
        self.ended.push_reserved(conn);
    }
}
