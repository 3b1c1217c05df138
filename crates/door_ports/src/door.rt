ghost use Rattle.std.specs.Prelude.{◌≡◌, ◌+◌, ◌<◌, ℕ, [], IfOk, IfSome, List, OnErr, OnOk};
ghost use Rattle.std.specs.declared.option.Option.{Option};
ghost use Rattle.dra_ports.specs.Causes.{HasCause};
ghost use Rattle.door_ports.specs.Shares.{IsLeft, Share, advanced};
ghost use Rattle.door_ports.specs.Visits.{Ended, ending, with_ended};

use crate::Accepted;
use dra_ports::{Conn, PortError};

/// What accepts connections, one after another, and takes each back once it was served.
///
/// The connections of all doors that are opened together are numbered from 1, and each door has a share
/// of the numbers: see [`Doors::open`](crate::Doors::open).
pub trait Door: Drop {
    /// A connection.
    type Conn: Conn + Drop;

    /// The connections that it may still accept.
    ghost share: { Self → Share };

    /// How many connections were accepted and have not ended.
    ghost in_service: { Self → ℕ };

    /// How many connections have ended.
    ghost served: { Self → ℕ };

    /// The connections that have ended, in order, if the door exposes them.
    ghost ended: { Self → Option (List Ended) };

    /// How often it has failed. This never falls, and stays at 2^64-1 once it is there.
    ghost faults: { Self → ℕ };

    /// Accepts the next connection of its share, of which one must be left. Nothing was written to the
    /// connection yet, and it has not failed.
    ///
    /// Returns `Failed` only if the count of errors rose in this call, or is at its maximum, and `Memory`
    /// only if out of memory. After either the same connection is the next. With every result but
    /// `Failed` the count is unchanged.
    fn accept(&mut self) -> Result<Accepted<Self::Conn>, PortError>
        requires left { IsLeft (share self.old) }
        ensures number { IfOk result (λ a. a.number ≡ (share self.old).next) }
        ensures start { IfOk result (λ a. a.start ≡ a.conn) }
        ensures unwritten { IfOk result (λ a. IfSome (Self.Conn.written a.conn) (λ bytes. bytes ≡ [])) }
        ensures faultless { IfOk result (λ a. Self.Conn.Source.faults a.conn ≡ 0) }
        ensures next { OnOk result (share self.new ≡ advanced (share self.old)) }
        ensures given { OnOk result (in_service self.new ≡ in_service self.old + 1) }
        ensures same_next { OnErr result (share self.new ≡ share self.old) }
        ensures same_given { OnErr result (in_service self.new ≡ in_service self.old) }
        ensures same_served { served self.new ≡ served self.old }
        ensures same_ended { ended self.new ≡ ended self.old }
        ensures cause { HasCause (faults self.old) (faults self.new) result };

    /// Takes a connection back after its service, which must not be more than it accepted. Allocates
    /// nothing, and the count of errors is unchanged.
    fn end(&mut self, conn: Accepted<Self::Conn>)
        requires accepted { 0 < in_service self.old }
        ensures ended { ended self.new ≡ with_ended (ended self.old) (ending Self.Conn.left Self.Conn.written Self.Conn.Source.faults conn) }
        ensures served { served self.new ≡ served self.old + 1 }
        ensures taken { in_service self.new + 1 ≡ in_service self.old }
        ensures share { share self.new ≡ share self.old }
        ensures faults { faults self.new ≡ faults self.old };
}
