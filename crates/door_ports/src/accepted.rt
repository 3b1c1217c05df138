ghost use Rattle.std.specs.Prelude.{◌≡◌};
ghost use Rattle.std.specs.Borrow.{sem, Lends};
ghost use Rattle.door_ports.specs.contracts.accepted.Accepted.{the_row};
ghost use Rattle.door_ports.specs.Visits.{with_conn};

use std::marker::Model;
use std::snapshot::Snapshot;

/// A connection that a door accepted, with its number. Contracts also see it as it was when it was
/// accepted, so what was read from it is known when it ends.
#[derive(Drop)]
pub struct Accepted<C> {
    number: u64,
    conn: C,
    start: Snapshot<C>,
}

impl<C> Model for Accepted<C> {
    ghost use Rattle.std.specs.Prelude.{◌≡◌};
    ghost use Rattle.door_ports.specs.Visits.{Visit};

    ghost Value = { Visit C };

    ghost view = { λ a. record { number = a.number; conn = a.conn; start = a.start.value } };
}

impl<C> Accepted<C> {
    /// The connection with this number, as it is when it is accepted.
    pub fn new(number: u64, conn: C) -> Accepted<C>
        ensures { result ≡ record { number = number; conn = conn; start = conn } }
    {
        let start = Snapshot::of(&conn);
        Accepted {
            number,
            conn,
            start,
        }
    }

    /// Its number, from 1.
    pub fn number(&self) -> u64
        ensures { result ≡ self.now.number }
    {
        self.number
    }

    /// The connection, to read from and to write to.
    pub fn conn(&mut self) -> &mut C
        ensures* writes_back { sem 𝓛 (Lends (the_row C.row) C.row self.entry result (with_conn self.old)) }
        ensures value { result.now ≡ self.old.conn }
    {
        &mut self.conn
    }

    /// The connection, to look at.
    pub fn as_conn(&self) -> &C
        ensures { result.now ≡ self.now.conn }
    {
        &self.conn
    }
}
