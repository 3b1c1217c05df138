ghost use Rattle.std.specs.Prelude.{◌≡◌, ◌+◌, ◌++◌, ◌-◌, ◌^◌, ◌≤◌, ℕ, length, min, vec_capacity, vec_len};
ghost use Rattle.std.specs.List.{flat_map, sum_by};
ghost use Rattle.door_ports.specs.MemDoors.{ended_in, mem_ended};
ghost use Rattle.door_ports.specs.Shares.{any_failed};

use crate::replies::{sort_visits, visits_of, written_to};
use crate::script::Script;
use crate::{Doors, MemDoor, MemInput};
use dra_ports::PortError;
use dra_values::Shared;
use std::alloc::{AllocError, Global};

/// Doors in memory: each connection has an input that was handed in. They expose all connections that have
/// ended.
#[derive(Drop)]
pub struct MemDoors {
    alloc: Global,
    script: Shared<Script>,
    closed: Vec<Vec<MemDoor>>,
    out: usize,
    served: u64,
    faults: u64,
    ghost room: { vec_len closed + out ≤ vec_capacity closed },
}

/// How many connections have ended at these doors, at most 2^64-1.
fn served_at(doors: &[MemDoor]) -> u64
    ensures { result ≡ min (sum_by (λ d. vec_len d.ended) doors.now) (2 ^ 64 - 1) }
{
    let mut served: u64 = 0;
    for door in doors {
        served = served.saturating_add(door.visits().len() as u64);
    }
    served
}

/// Whether one of these doors has failed.
fn has_failed(doors: &[MemDoor]) -> bool
    ensures { result ≡ any_failed (λ d. d.faults) doors.now }
{
    doors.iter().any(|door| door.count() != 0)
}

/// Puts doors behind those that were closed before.
#[tactic(auto, using(crate::proofs::Closing::ended_more, crate::proofs::Closing::ended_none))]
fn keep(closed: &mut Vec<Vec<MemDoor>>, doors: Vec<MemDoor>)
    requires room { vec_len closed.old + length doors.items ≤ vec_capacity closed.old }
    ensures ended { ended_in closed.new.items ≡ ended_in closed.old.items ++ flat_map mem_ended doors.items }
    ensures len { vec_len closed.new ≤ vec_len closed.old + length doors.items }
    ensures capacity { vec_capacity closed.new ≡ vec_capacity closed.old }
{
    if doors.len() > 0 {
        closed.push_reserved(doors);
    }
}

impl MemDoors {
    ghost use Rattle.std.specs.Prelude.{[], ◌<◌, IfOk, get_or, map};
    ghost use Rattle.door_ports.specs.MemDoors.{IsNewDoor};
    ghost use Rattle.door_ports.specs.Replies.{AreReplies};
    ghost use Rattle.door_ports.specs.AllMemDoors.{all_ended};

    /// Doors whose connection i, from 1, has the input at the index i - 1. With 1 in `failing` the opening
    /// fails, and with 1 + i the acceptance of connection i, at whichever door. Returns `AllocError` only
    /// if out of memory.
    pub fn new(
        alloc: Global,
        inputs: Vec<MemInput>,
        failing: Vec<u64>,
    ) -> Result<MemDoors, AllocError>
        ensures inputs { IfOk result (λ m. m.script.inputs ≡ inputs) }
        ensures failing { IfOk result (λ m. m.script.failing ≡ failing) }
        ensures ended { IfOk result (λ m. all_ended m ≡ []) }
        ensures served { IfOk result (λ m. m.served ≡ 0) }
        ensures out { IfOk result (λ m. m.out ≡ 0) }
        ensures faults { IfOk result (λ m. m.faults ≡ 0) }
    {
        let script = Shared::new(alloc, Script { inputs, failing })?;
        Ok(MemDoors {
            alloc,
            script,
            closed: Vec::new(alloc),
            out: 0,
            served: 0,
            faults: 0,
        })
    }

    /// What was written to each connection that has ended at a door that was closed, in order of their
    /// numbers. Returns `AllocError` only if out of memory.
    pub fn replies(&self, alloc: Global) -> Result<Vec<&[u8]>, AllocError>
        ensures { IfOk result (λ texts. AreReplies (all_ended self.now) (map (λ t. t.now) texts.items)) }
    {
        let mut visits = visits_of(alloc, &self.closed)?;
        sort_visits(&mut visits)?;
        let texts = written_to(alloc, &visits)?;
        Ok(texts)
    }

    /// `n` doors, none of which has accepted a connection.
    #[tactic(auto, using(crate::proofs::Opening::one_more))]
    fn new_doors(&self, n: usize, connections: u64) -> Result<Vec<MemDoor>, AllocError>
        ensures count { IfOk result (λ doors. length doors.items ≡ n) }
        ensures new { IfOk result (λ doors. (i : ℕ) (d : _) → i < n → IsNewDoor self.now.script i n connections (get_or doors.items i d)) }
    {
        let mut doors = Vec::with_capacity(self.alloc, n)?;
        for at in 0..n {
            let script = self.script.share()?;
            let door = MemDoor::new(self.alloc, script, at, n, connections)?;
            doors.push_reserved(door);
        }
        Ok(doors)
    }

    /// Makes room to close `n` more doors, and returns how many doors are then open.
    fn make_room(&mut self, n: usize) -> Result<usize, AllocError>
        ensures ok { IfOk result (λ out. out ≡ self.old.out + n) }
        ensures room { IfOk result (λ out. vec_len self.new.closed + out ≤ vec_capacity self.new.closed) }
        ensures out { self.new.out ≡ self.old.out }
        ensures ended { self.new.closed.items ≡ self.old.closed.items }
        ensures script { self.new.script ≡ self.old.script }
        ensures served { self.new.served ≡ self.old.served }
        ensures faults { self.new.faults ≡ self.old.faults }
    {
        let Some(out) = self.out.checked_add(n) else {
            return Err(AllocError);
        };
        self.closed.reserve(out)?;
        Ok(out)
    }
}

impl Doors for MemDoors {
    ghost use Rattle.std.specs.Prelude.{◌<◌, IfOk, IfErr, OnErr, OnOk, Some, get_or, map, if◌then◌else◌};
    ghost use Rattle.std.specs.Bool.{OnFalse, OnTrue};
    ghost use Rattle.dra_ports.specs.Causes.{HasCause, Rose};
    ghost use Rattle.dra_ports.specs.declared.error.PortError.TheVariants.{Failed, Memory};
    ghost use Rattle.door_ports.specs.MemDoors.{IsNewDoor, fails_at};
    ghost use Rattle.door_ports.specs.AllMemDoors.{all_ended, Opens};

    type Door = MemDoor;

    ghost served = { λ m. m.served };

    ghost ended = { λ m. Some (all_ended m) };

    ghost out = { λ m. m.out };

    ghost faults = { λ m. m.faults };

    /// Fails if and only if 1 is among the calls that are to fail. With another error it is out of memory.

    fn open(
        &mut self,
        _address: &str,
        n: usize,
        connections: u64,
    ) -> Result<Vec<MemDoor>, PortError>
        ensures count { IfOk result (λ doors. length doors.items ≡ n) }
        ensures doors { IfOk result (λ doors. (i : ℕ) (d : _) → i < n → IsNewDoor self.old.script i n connections (get_or doors.items i d)) }
        ensures given { OnOk result (self.new.out ≡ self.old.out + n) }
        ensures same_given { OnErr result (self.new.out ≡ self.old.out) }
        ensures same_served { self.new.served ≡ self.old.served }
        ensures same_ended { all_ended self.new ≡ all_ended self.old }
        ensures cause { HasCause self.old.faults self.new.faults result }
        ensures answer { Opens (fails_at self.old.script 1) result }
        ensures script { self.new.script ≡ self.old.script }
    {
        if self.script.fails(1) {
            self.faults = self.faults.saturating_add(1);
            return Err(PortError::Failed);
        }
        let out = self.make_room(n)?;
        let doors = self.new_doors(n, connections)?;
        self.out = out;
        Ok(doors)
    }

    fn close(&mut self, doors: Vec<MemDoor>)
        requires opened { length doors.items ≤ self.old.out }
        ensures taken { self.new.out + length doors.items ≡ self.old.out }
        ensures served { self.new.served ≡ min (self.old.served + sum_by (λ d. vec_len d.ended) doors.items) (2 ^ 64 - 1) }
        ensures ended { all_ended self.new ≡ all_ended self.old ++ flat_map mem_ended doors.items }
        ensures later { self.old.faults ≤ self.new.faults }
        ensures rose { OnTrue (any_failed (λ d. d.faults) doors.items) (Rose self.old.faults self.new.faults) }
        ensures faultless { OnFalse (any_failed (λ d. d.faults) doors.items) (self.new.faults ≡ self.old.faults) }
        ensures script { self.new.script ≡ self.old.script }
    {
        self.served = self.served.saturating_add(served_at(&doors));
        if has_failed(&doors) {
            self.faults = self.faults.saturating_add(1);
        }
        self.out -= doors.len();
        keep(&mut self.closed, doors);
    }
}
