ghost use Rattle.std.specs.Prelude.{◌≡◌, ◌+◌, ◌-◌, ◌^◌, ◌≤◌, length, map, min};
ghost use Rattle.std.specs.Bool.{OnFalse, OnTrue};
ghost use Rattle.std.specs.List.{sum_by};
ghost use Rattle.dra_ports.specs.Causes.{Rose};
ghost use Rattle.door_ports.specs.Shares.{any_failed};
ghost use Rattle.door_ports.specs.Visits.{handed_on};

use door_ports::Doors;
use dra_ports::PortError;
use net_doors::NetDoor;
use std::io;
use std::net::SocketAddr;

/// A door with an address.
pub trait Addressed {
    /// The address at which it accepts connections.
    fn address(&self) -> io::Result<SocketAddr>;
}

impl Addressed for NetDoor {
    fn address(&self) -> io::Result<SocketAddr> {
        NetDoor::address(self)
    }
}

/// Says on the standard error where doors listen, and how many connections they will accept. If the standard error fails,
/// nothing is said.
fn announce<D: Addressed>(rt: &HostRuntime, doors: &[D], connections: u64) {
    let Some(door) = doors.first() else {
        return;
    };
    if let Ok(address) = door.address() {
        let _ = eprintln!(rt; "dra: listening at {address} for {connections} connections");
    }
}

/// Doors that say on the standard error, once they are open, where they listen.
#[derive(Drop)]
pub struct AnnouncedDoors<'a, O> {
    rt: &'a HostRuntime,
    doors: O,
}

impl<'a, O> AnnouncedDoors<'a, O> {
    pub fn new(rt: &'a HostRuntime, doors: O) -> AnnouncedDoors<'a, O> {
        AnnouncedDoors { rt, doors }
    }
}

impl<'a, O: Doors<Door: Addressed>> Doors for AnnouncedDoors<'a, O> {
    type Door = O::Door;

    ghost served = { λ d. O.served d.doors };

    ghost ended = { λ d. O.ended d.doors };

    ghost out = { λ d. O.out d.doors };

    ghost faults = { λ d. O.faults d.doors };

    fn open(
        &mut self,
        address: &str,
        n: usize,
        connections: u64,
    ) -> Result<Vec<O::Door>, PortError> {
        match self.doors.open(address, n, connections) {
            Ok(doors) => {
                announce(self.rt, &doors, connections);
                Ok(doors)
            }
            Err(error) => Err(error),
        }
    }

    fn close(&mut self, doors: Vec<O::Door>)
        requires opened { length doors.items ≤ O.out self.old.doors }
        ensures taken { O.out self.new.doors + length doors.items ≡ O.out self.old.doors }
        ensures served { O.served self.new.doors ≡ min (O.served self.old.doors + sum_by O.Door.served doors.items) (2 ^ 64 - 1) }
        ensures ended { O.ended self.new.doors ≡ handed_on (O.ended self.old.doors) (map O.Door.ended doors.items) }
        ensures later { O.faults self.old.doors ≤ O.faults self.new.doors }
        ensures rose { OnTrue (any_failed O.Door.faults doors.items) (Rose (O.faults self.old.doors) (O.faults self.new.doors)) }
        ensures faultless { OnFalse (any_failed O.Door.faults doors.items) (O.faults self.new.doors ≡ O.faults self.old.doors) }
    {
        self.doors.close(doors);
    }
}
