ghost use Rattle.std.specs.Prelude.{◌≡◌, ◌++◌, IfOk, OnOk, map};
ghost use Rattle.std.specs.List.{flat_map};
ghost use Rattle.dra_ports.specs.Conn.{conn_written};
ghost use Rattle.door_ports.specs.MemDoors.{ended_in, mem_ended, mem_ending};
ghost use Rattle.door_ports.specs.Replies.{AreInOrder};

use crate::{Accepted, MemDoor};
use dra_ports::MemConn;
use std::alloc::{AllocError, Global};

/// Adds the connections that have ended at one door.
fn add_visits<'a>(
    visits: &mut Vec<&'a Accepted<MemConn>>,
    door: &'a MemDoor,
) -> Result<(), AllocError>
    ensures { OnOk result (map (λ v. mem_ending v.now) visits.new.items ≡ map (λ v. mem_ending v.now) visits.old.items ++ mem_ended door.now) }
{
    for visit in door.visits() {
        visits.push(visit)?;
    }
    Ok(())
}

/// Adds the connections that have ended at these doors, door by door.
fn add_doors<'a>(
    visits: &mut Vec<&'a Accepted<MemConn>>,
    doors: &'a [MemDoor],
) -> Result<(), AllocError>
    ensures { OnOk result (map (λ v. mem_ending v.now) visits.new.items ≡ map (λ v. mem_ending v.now) visits.old.items ++ flat_map mem_ended doors.now) }
{
    for door in doors {
        add_visits(visits, door)?;
    }
    Ok(())
}

/// The connections that have ended at doors, in the order in which the doors were closed.
pub(crate) fn visits_of(
    alloc: Global,
    closed: &[Vec<MemDoor>],
) -> Result<Vec<&Accepted<MemConn>>, AllocError>
    ensures { IfOk result (λ visits. map (λ v. mem_ending v.now) visits.items ≡ ended_in closed.now) }
{
    let mut visits = Vec::new(alloc);
    for doors in closed {
        add_doors(&mut visits, doors)?;
    }
    Ok(visits)
}

/// Puts connections in order of their numbers.
pub(crate) fn sort_visits(visits: &mut Vec<&Accepted<MemConn>>) -> Result<(), AllocError>
    ensures { OnOk result (AreInOrder (map (λ v. mem_ending v.now) visits.old.items) (map (λ v. mem_ending v.now) visits.new.items)) }
{
    visits.sort_by_key(|visit| visit.number())?;
    Ok(())
}

/// What was written to each of these connections.
pub(crate) fn written_to<'a>(
    alloc: Global,
    visits: &[&'a Accepted<MemConn>],
) -> Result<Vec<&'a [u8]>, AllocError>
    ensures { IfOk result (λ texts. map (λ t. t.now) texts.items ≡ map (λ v. conn_written v.now.conn) visits.now) }
{
    let mut texts = Vec::with_capacity(alloc, visits.len())?;
    for visit in visits {
        texts.push(visit.as_conn().bytes())?;
    }
    Ok(texts)
}
