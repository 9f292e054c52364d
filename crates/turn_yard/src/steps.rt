//! The rule of the yard's table, and what each kind of atomic step tells.
ghost use Rattle.turn_yard.specs.Tells.{tells};
ghost use Rattle.turn_yard.specs.Rule.{IsOrderly, keeper};
ghost use Rattle.turn_yard.specs.Steps.{took, raised, gave, looked, with_seat, new_seat, with_returned, spent};

use crate::entries::Entries;
use crate::view::View;
use atomic_table::{Join, Play, Split, TableRule};
use std::snapshot::Snapshot;

/// All threads agree on one history of the value. The key is the value that the yard was made with.
pub struct OneHistory;

impl<T: Entries> TableRule<Option<T>, View, Snapshot<T>> for OneHistory {
    ghost holds = { λ _. IsOrderly (tells T.entries T.origin T.marks) };

    ghost first = { λ first. keeper (T.origin first.value) (T.marks first.value) };
}

/// The turn is taken, and the value with it.
pub struct Take;

impl<T: Entries> Play<Option<T>, View> for Take {
    ghost then = { took (tells T.entries T.origin T.marks) };
}

/// The mark of a partition is raised.
pub struct Raise;

impl<T: Entries> Play<Option<T>, View> for Raise {
    ghost then = { raised };
}

/// The turn is given back, and the value with it.
pub struct Give;

impl<T: Entries> Play<Option<T>, View> for Give {
    ghost then = { gave (tells T.entries T.origin T.marks) };
}

/// The mark of a partition is read.
pub struct Look;

impl<T: Entries> Play<Option<T>, View> for Look {
    ghost then = { looked };
}

/// The yard makes a seat.
pub struct MakeSeat;

impl Split<View> for MakeSeat {
    ghost left = { with_seat };

    ghost right = { new_seat };
}

/// A seat returns to the yard.
pub struct ReturnSeat;

impl Join<View> for ReturnSeat {
    ghost both = { with_returned };

    ghost spent = { spent };
}
