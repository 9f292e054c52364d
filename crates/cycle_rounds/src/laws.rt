//! Laws of every legal list of events, whatever the lists and the letters hold.

ghost use Rattle.cycle_rounds.specs.Protocol.{EachLetterHasItsNumber, EachLetterIsInOnePlace, EventsAreCounted, EventsAreInOrder, LeasesStay, NeverStuck, OthersLeaveItAlone};
ghost use Rattle.cycle_rounds.specs.Readiness.{CountsTellTheTruth};

/// Each due letter is in one place, or gone, and each letter has its own number.
pub fn letters_law<X, L, P>()
    ensures place { EachLetterIsInOnePlace X L P }
    ensures number { EachLetterHasItsNumber X L P }
{}

/// A reading comes after the sendings of its letters, and the tail after all that comes before the barrier.
pub fn order_law<X, L, P>()
    ensures { EventsAreInOrder X L P }
{}

/// While a task is out, no event but its own give touches what it reads.
pub fn lease_law<X, L, P>()
    ensures stays { LeasesStay X L P }
    ensures alone { OthersLeaveItAlone X L P }
{}

/// A complete list has two events for each task and one for each letter, and no legal list is longer.
pub fn events_law<X, L, P>()
    ensures { EventsAreCounted X L P }
{}

/// In a state that is not complete a task may be taken, a task is out, or a letter is on the wire.
pub fn never_stuck_law<X, L, P>()
    ensures { NeverStuck X L P }
{}

/// Counts that single events keep up are those of the state, and mark exactly the lists whose next task may be taken.
pub fn readiness_law<X, L, P>()
    ensures { CountsTellTheTruth X L P }
{}
