//! Laws of the sums of a cycle.

ghost use Rattle.cycle_sums.specs.Bounds.{SumsStayBelow};
ghost use Rattle.cycle_sums.specs.Shows.{DeliveriesCountNothing, GivesCount, OpeningsCountNothing, TakesCountNothing};
ghost use Rattle.cycle_sums.specs.Wishes.{DeliveriesWishNothing, GivesWish, OpeningsWishNothing, OthersWishNothing, SettingTells, TakesWishNothing};

/// Sums of nothing are those of the opening; a Take and a Deliver leave them, and a Give adds what its list counts.
pub fn sum_law<X, V, G, F, P, W>()
    ensures opening { OpeningsCountNothing X V G F P W }
    ensures take { TakesCountNothing X V G F P W }
    ensures deliver { DeliveriesCountNothing X V G F P W }
    ensures give { GivesCount X V G F P W }
{}

/// No block has told its wish in the opening; a Take, a Deliver and the Give of a task that does not tag leave wishes,
/// and a Give that tags tells those of its list's blocks.
pub fn wish_law<X, V, G, F, P, W>()
    ensures opening { OpeningsWishNothing X V G F P W }
    ensures take { TakesWishNothing X V G F P W }
    ensures deliver { DeliveriesWishNothing X V G F P W }
    ensures give { GivesWish X V G F P W }
    ensures others { OthersWishNothing X V G F P W }
    ensures set { SettingTells X V G F P W }
{}

/// Whatever the order of events, a cycle has counted no more of a field than what it comes to.
pub fn bound_law<X, V, G, F, P, W>()
    ensures { SumsStayBelow X V G F P W }
{}
