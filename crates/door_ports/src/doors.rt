ghost use Rattle.std.specs.Prelude.{◌≡◌, ◌+◌, ◌-◌, ◌^◌, ◌<◌, ◌≤◌, ℕ, IfOk, List, OnErr, OnOk, get_or, length, map, min};
ghost use Rattle.std.specs.Bool.{OnFalse, OnTrue};
ghost use Rattle.std.specs.List.{sum_by};
ghost use Rattle.std.specs.declared.option.Option.{Option};
ghost use Rattle.dra_ports.specs.Causes.{HasCause, Rose};
ghost use Rattle.door_ports.specs.Shares.{IsNew, any_failed, share_of};
ghost use Rattle.door_ports.specs.Visits.{Ended, handed_on};

use crate::Door;
use dra_ports::PortError;

/// Where the doors of a server are opened, and closed again.
pub trait Doors {
    /// A door. It can be moved to another thread, and so can its connections.
    type Door: Door<Conn: Send> + Send;

    /// How many connections have ended at doors that were closed. This stays at 2^64-1 once it is there.
    ghost served: { Self → ℕ };

    /// The connections that have ended at doors that were closed, if they are exposed.
    ghost ended: { Self → Option (List Ended) };

    /// How many doors were opened and not closed.
    ghost out: { Self → ℕ };

    /// How often it has failed. This never falls, and stays at 2^64-1 once it is there.
    ghost faults: { Self → ℕ };

    /// Opens `n` doors to one address. Door i, from 0, accepts the connections i + 1, i + 1 + n and so
    /// on up to `connections`. Makes the room that the doors need to end connections, and that is needed
    /// to close them.
    ///
    /// Returns `Failed` only if the count of errors rose in this call, or is at its maximum, and `Memory`
    /// only if out of memory. With every result but `Failed` the count is unchanged.
    fn open(
        &mut self,
        address: &str,
        n: usize,
        connections: u64,
    ) -> Result<Vec<Self::Door>, PortError>
        ensures count { IfOk result (λ doors. length doors.items ≡ n) }
        ensures new { IfOk result (λ doors. (i : ℕ) (d : _) → i < n
            → IsNew (share_of i n connections) (Self.Door.share (get_or doors.items i d)) (Self.Door.in_service (get_or doors.items i d))
            (Self.Door.served (get_or doors.items i d)) (Self.Door.faults (get_or doors.items i d)) (Self.Door.ended (get_or doors.items i d))) }
        ensures given { OnOk result (out self.new ≡ out self.old + n) }
        ensures same_given { OnErr result (out self.new ≡ out self.old) }
        ensures same_served { served self.new ≡ served self.old }
        ensures same_ended { ended self.new ≡ ended self.old }
        ensures cause { HasCause (faults self.old) (faults self.new) result };

    /// Takes doors back, which must not be more than it opened. Allocates nothing. The count of errors
    /// rises, or is at its maximum, if the count of one of these doors isn't 0, and else is unchanged.
    fn close(&mut self, doors: Vec<Self::Door>)
        requires opened { length doors.items ≤ out self.old }
        ensures taken { out self.new + length doors.items ≡ out self.old }
        ensures served { served self.new ≡ min (served self.old + sum_by Self.Door.served doors.items) (2 ^ 64 - 1) }
        ensures ended { ended self.new ≡ handed_on (ended self.old) (map Self.Door.ended doors.items) }
        ensures later { faults self.old ≤ faults self.new }
        ensures rose { OnTrue (any_failed Self.Door.faults doors.items) (Rose (faults self.old) (faults self.new)) }
        ensures faultless { OnFalse (any_failed Self.Door.faults doors.items) (faults self.new ≡ faults self.old) };
}
