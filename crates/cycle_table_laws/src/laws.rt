//! The tables show the machine of `cycle_rounds`, event by event.

ghost use Rattle.cycle_table_laws.specs.Laws.{BeginIsShown, DeliverIsShown, GiveIsShown, LeaseHasItsLetters, LeaseKeepsItsLetters, ReadinessIsShown, TakeIsShown};

/// The tables of a cycle that begins show its first state.
pub fn begin_law<X, L, P, T>()
    ensures { BeginIsShown X L P T }
{}

/// What the tables say of ready lists, of the wire and of the end is so in the state that they show.
pub fn readiness_law<X, L, P, T>()
    ensures { ReadinessIsShown X L P T }
{}

/// A task that may be taken may be taken of the tables, and they then show the next state.
pub fn take_law<X, L, P, T>()
    ensures { TakeIsShown X L P T }
{}

/// A task that may be given may be given to the tables, and they then show the next state.
pub fn give_law<X, L, P, T>()
    ensures { GiveIsShown X L P T }
{}

/// A letter on the wire may be delivered by the tables, and they then show the next state.
pub fn deliver_law<X, L, P, T>()
    ensures { DeliverIsShown X L P T }
{}

/// The letters that went with a task are those that the machine reads when its work is given.
pub fn lease_law<X, L, P>()
    ensures stay { LeaseKeepsItsLetters X L P }
    ensures hold { LeaseHasItsLetters X L P }
{}
