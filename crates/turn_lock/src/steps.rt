// The rule of the lock's table, and the eight kinds of step that threads take on it.
use crate::recorded::Recorded;
use crate::view::{Start, View};
use atomic_table::{Join, Play, Split, TableRule};

/// The rule that each step keeps.
pub struct InTurns;

impl<T: Recorded> TableRule<Option<T>, View<T::Entry>, Start<T>> for InTurns {
    ghost use Rattle.turn_lock.specs.Rule.{InOrder, first_view};

    ghost holds = { λ k s. InOrder T.history T.number (T.history k.state.value) k.passes (T.number k.state.value) s };

    ghost first = { λ k. first_view (T.history k.state.value) k.passes (T.number k.state.value) };
}

/// Takes a ticket.
pub(crate) struct Take;

impl<T: Recorded> Play<Option<T>, View<T::Entry>> for Take {
    ghost use Rattle.turn_lock.specs.Steps.{took};

    ghost then = { took };
}

/// Reads which ticket is served.
pub(crate) struct Look;

impl<T: Recorded> Play<Option<T>, View<T::Entry>> for Look {
    ghost use Rattle.turn_lock.specs.Steps.{looked};

    ghost then = { looked };
}

/// Takes the state out of the slot.
pub(crate) struct SlotOut;

impl<T: Recorded> Play<Option<T>, View<T::Entry>> for SlotOut {
    ghost use Rattle.turn_lock.specs.Steps.{took_out};

    ghost then = { took_out T.history T.number };
}

/// Puts the state back into the slot.
pub(crate) struct SlotIn;

impl<T: Recorded> Play<Option<T>, View<T::Entry>> for SlotIn {
    ghost use Rattle.turn_lock.specs.Steps.{put_in};

    ghost then = { put_in T.history };
}

/// Lets the next ticket be served.
pub(crate) struct Leave;

impl<T: Recorded> Play<Option<T>, View<T::Entry>> for Leave {
    ghost use Rattle.turn_lock.specs.Steps.{gave_up_turn};

    ghost then = { gave_up_turn };
}

/// Splits a share off.
pub(crate) struct SplitShare;

impl<E> Split<View<E>> for SplitShare {
    ghost use Rattle.turn_lock.specs.Steps.{lessened_view, new_view};

    ghost left = { lessened_view };

    ghost right = { new_view };
}

/// Joins two views.
pub(crate) struct JoinViews;

impl<E> Join<View<E>> for JoinViews {
    ghost use Rattle.turn_lock.specs.Steps.{joined_view, spent_view};

    ghost both = { joined_view };

    ghost spent = { spent_view };
}

/// Finds, after a join, that the shorter of the two fronts is a prefix of the longer.
pub(crate) struct Meet;

impl<T: Recorded> Play<Option<T>, View<T::Entry>> for Meet {
    ghost use Rattle.turn_lock.specs.Steps.{met};

    ghost then = { met };
}
