ghost use Rattle.std.specs.Prelude.{◌≡◌, ◌+◌, ◌-◌, ◌^◌, ◌<◌, ◌≤◌, ℕ, IfOk, OnErr, OnOk, None, get_or, length, min};
ghost use Rattle.std.specs.List.{sum_by};
ghost use Rattle.std.specs.Bool.{OnFalse, OnTrue};
ghost use Rattle.dra_ports.specs.Causes.{HasCause, Rose};
ghost use Rattle.door_ports.specs.Shares.{any_failed};
ghost use Rattle.net_doors.specs.NetDoors.{IsNewDoor};

use crate::NetDoor;
use crate::conn::counted;
use door_ports::Doors;
use dra_ports::PortError;
use dra_values::Shared;
use std::alloc::{AllocError, Global};
use std::net::{Net, TcpListener, TcpStream};

/// The doors of the operating system. They don't expose the bytes of their connections.
#[derive(Drop)]
pub struct NetDoors<'a, R> {
    net: &'a R,
    alloc: Global,
    out: usize,
    served: u64,
    faults: u64,
}

impl<'a, R> NetDoors<'a, R> {
    /// No doors so far, and no error.
    pub fn new(net: &'a R, alloc: Global) -> NetDoors<'a, R>
        ensures out { result.out ≡ 0 }
        ensures served { result.served ≡ 0 }
        ensures faults { result.faults ≡ 0 }
    {
        NetDoors {
            net,
            alloc,
            out: 0,
            served: 0,
            faults: 0,
        }
    }
}

/// How many connections have ended at these doors, at most 2^64-1.
fn served_at(doors: &[NetDoor]) -> u64
    ensures { result ≡ min (sum_by (λ d. d.served) doors.now) (2 ^ 64 - 1) }
{
    let mut served: u64 = 0;
    for door in doors {
        served = served.saturating_add(door.count());
    }
    served
}

/// Whether one of these doors has failed.
fn has_failed(doors: &[NetDoor]) -> bool
    ensures { result ≡ any_failed (λ d. d.faults) doors.now }
{
    doors.iter().any(|door| door.has_failed())
}

/// `n` doors at one listener, none of which has accepted a connection.
#[tactic(auto, using(crate::proofs::Opening::one_more))]
fn new_doors(
    alloc: Global,
    listener: TcpListener,
    n: usize,
    connections: u64,
) -> Result<Vec<NetDoor>, AllocError>
    ensures count { IfOk result (λ doors. length doors.items ≡ n) }
    ensures new { IfOk result (λ doors. (i : ℕ) (d : _) → i < n → IsNewDoor i n connections (get_or doors.items i d)) }
{
    let shared = Shared::new(alloc, listener)?;
    let mut doors = Vec::with_capacity(alloc, n)?;
    for at in 0..n {
        let listener = shared.share()?;
        doors.push_reserved(NetDoor::new(listener, at, n, connections));
    }
    Ok(doors)
}

impl<'a, R: Net<Listener = TcpListener, Stream = TcpStream>> NetDoors<'a, R> {
    /// A listener at an address.
    fn listen(&mut self, address: &str) -> Result<TcpListener, PortError>
        ensures cause { HasCause self.old.faults self.new.faults result }
        ensures out { self.new.out ≡ self.old.out }
        ensures served { self.new.served ≡ self.old.served }
    {
        match TcpListener::bind(self.net, address) {
            Ok(listener) => Ok(listener),
            Err(error) => Err(counted(&mut self.faults, &error)),
        }
    }
}

impl<'a, R: Net<Listener = TcpListener, Stream = TcpStream>> Doors for NetDoors<'a, R> {
    type Door = NetDoor;

    ghost served = { λ m. m.served };

    ghost ended = { λ m. None };

    ghost out = { λ m. m.out };

    ghost faults = { λ m. m.faults };

    /// Listens at the address, a host and a port as in `127.0.0.1:8080`.
    fn open(&mut self, address: &str, n: usize, connections: u64) -> Result<Vec<NetDoor>, PortError>
        ensures count { IfOk result (λ doors. length doors.items ≡ n) }
        ensures doors { IfOk result (λ doors. (i : ℕ) (d : _) → i < n → IsNewDoor i n connections (get_or doors.items i d)) }
        ensures given { OnOk result (self.new.out ≡ self.old.out + n) }
        ensures same_given { OnErr result (self.new.out ≡ self.old.out) }
        ensures same_served { self.new.served ≡ self.old.served }
        ensures cause { HasCause self.old.faults self.new.faults result }
    {
        let Some(out) = self.out.checked_add(n) else {
            return Err(PortError::Memory);
        };
        let listener = self.listen(address)?;
        let doors = new_doors(self.alloc, listener, n, connections)?;
        self.out = out;
        Ok(doors)
    }

    fn close(&mut self, doors: Vec<NetDoor>)
        requires opened { length doors.items ≤ self.old.out }
        ensures taken { self.new.out + length doors.items ≡ self.old.out }
        ensures served { self.new.served ≡ min (self.old.served + sum_by (λ d. d.served) doors.items) (2 ^ 64 - 1) }
        ensures later { self.old.faults ≤ self.new.faults }
        ensures rose { OnTrue (any_failed (λ d. d.faults) doors.items) (Rose self.old.faults self.new.faults) }
        ensures faultless { OnFalse (any_failed (λ d. d.faults) doors.items) (self.new.faults ≡ self.old.faults) }
    {
        self.served = self.served.saturating_add(served_at(&doors));
        if has_failed(&doors) {
            self.faults = self.faults.saturating_add(1);
        }
        self.out -= doors.len();
    }
}
