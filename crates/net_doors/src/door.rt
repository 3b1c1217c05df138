ghost use Rattle.std.specs.Prelude.{◌≡◌, ◌+◌, ◌<◌, ◌≤◌};

use crate::conn::{NetConn, counted};
use door_ports::{Accepted, Door};
use dra_ports::PortError;
use dra_values::Shared;
use std::io;
use std::net::{SocketAddr, TcpListener};

/// A door of [`NetDoors`](crate::NetDoors). It doesn't expose the bytes of its connections.
#[derive(Drop)]
pub struct NetDoor {
    listener: Shared<TcpListener>,
    next: u128,
    step: usize,
    last: u64,
    in_service: u64,
    served: u64,
    faults: u64,
    ghost begun: { served + in_service < next },
    ghost fits: { served + in_service ≤ last },
    ghost moves: { 0 < step },
}

impl NetDoor {
    ghost use Rattle.std.specs.Prelude.{IfOk, nat_eq, not};
    ghost use Rattle.dra_ports.specs.Causes.{HasCause};
    ghost use Rattle.net_doors.specs.NetDoors.{IsNewDoor};

    /// Door `at` of `n`, from 0.
    pub(crate) fn new(
        listener: Shared<TcpListener>,
        at: usize,
        n: usize,
        connections: u64,
    ) -> NetDoor
        requires { at < n }
        ensures { IsNewDoor at n connections result }
    {
        NetDoor {
            listener,
            next: at as u128 + 1,
            step: n,
            last: connections,
            in_service: 0,
            served: 0,
            faults: 0,
        }
    }

    /// The address at which it accepts connections.
    pub fn address(&self) -> io::Result<SocketAddr> {
        self.listener.value().local_addr()
    }

    /// How many connections have ended at it.
    pub(crate) fn count(&self) -> u64
        ensures { result ≡ self.now.served }
    {
        self.served
    }

    /// Whether it has failed.
    pub(crate) fn has_failed(&self) -> bool
        ensures { result ≡ not (nat_eq self.now.faults 0) }
    {
        self.faults != 0
    }

    /// The next connection.
    fn connect(&mut self) -> Result<NetConn, PortError>
        ensures cause { HasCause self.old.faults self.new.faults result }
        ensures faultless { IfOk result (λ c. c.faults ≡ 0) }
        ensures same { self.new ≡ record self.old { faults = self.new.faults } }
    {
        match self.listener.value().accept() {
            Ok((stream, _)) => Ok(NetConn::new(stream)),
            Err(error) => Err(counted(&mut self.faults, &error)),
        }
    }
}

impl Door for NetDoor {
    ghost use Rattle.std.specs.Prelude.{IfErr, IfOk, None, OnErr, OnOk};
    ghost use Rattle.dra_ports.specs.Causes.{HasCause};
    ghost use Rattle.door_ports.specs.Shares.{IsLeft, advanced};
    ghost use Rattle.net_doors.specs.NetDoors.{door_share};

    type Conn = NetConn;

    ghost share = { λ d. door_share d };

    ghost in_service = { λ d. d.in_service };

    ghost served = { λ d. d.served };

    ghost ended = { λ d. None };

    ghost faults = { λ d. d.faults };

    /// Waits until a connection comes.
    fn accept(&mut self) -> Result<Accepted<NetConn>, PortError>
        requires left { IsLeft (door_share self.old) }
        ensures number { IfOk result (λ a. a.number ≡ (door_share self.old).next) }
        ensures start { IfOk result (λ a. a.start ≡ a.conn) }
        ensures faultless { IfOk result (λ a. a.conn.faults ≡ 0) }
        ensures next { OnOk result (door_share self.new ≡ advanced (door_share self.old)) }
        ensures given { OnOk result (self.new.in_service ≡ self.old.in_service + 1) }
        ensures same_next { OnErr result (door_share self.new ≡ door_share self.old) }
        ensures same_given { OnErr result (self.new.in_service ≡ self.old.in_service) }
        ensures same_served { self.new.served ≡ self.old.served }
        ensures cause { HasCause self.old.faults self.new.faults result }
    {
        let number = self.next as u64;
        let conn = self.connect()?;
        self.next += self.step as u128;
        self.in_service += 1;
        Ok(Accepted::new(number, conn))
    }

    /// Closes the connection.
    fn end(&mut self, _conn: Accepted<NetConn>)
        requires accepted { 0 < self.old.in_service }
        ensures served { self.new.served ≡ self.old.served + 1 }
        ensures taken { self.new.in_service + 1 ≡ self.old.in_service }
        ensures share { door_share self.new ≡ door_share self.old }
        ensures faults { self.new.faults ≡ self.old.faults }
    {
        self.in_service -= 1;
        self.served += 1;
    }
}
