//! Laws of tables and journals.

ghost use Rattle.journal_tables.specs.Laws.{DeliveriesFollow, GivesFollow, ReadinessFollows, StartFollows, StatesGoOn, TakesFollow};
ghost use Rattle.journal_tables.specs.NextWork.{WorkIsTold};
ghost use Rattle.journal_tables.specs.Rounds.{DeliveriesTellRounds, GivesTellRounds};

/// Tables as a cycle begins follow the journal without events, and an entry leads to the next state.
pub fn start_law<X, V, G, F, P, W, T>()
    ensures start { StartFollows X V G F P W T }
    ensures next { StatesGoOn X V G F P W T }
{}

/// Tables that follow a journal tell what can come next.
pub fn readiness_law<X, V, G, F, P, W, T>()
    ensures { ReadinessFollows X V G F P W T }
{}

/// Each event that may come meets what the tables ask for, and they follow the journal with its entry.
pub fn event_law<X, V, G, F, P, W, T>()
    ensures take { TakesFollow X V G F P W T }
    ensures give { GivesFollow X V G F P W T }
    ensures deliver { DeliveriesFollow X V G F P W T }
{}

/// Letters on the wire that tell their rounds go on to do so.
pub fn round_law<T>()
    ensures give { GivesTellRounds T }
    ensures deliver { DeliveriesTellRounds T }
{}

/// What tables that follow a journal say can be done next is so in the state that it leads to.
pub fn work_law<X, V, G, F, P, W, T>()
    ensures { WorkIsTold X V G F P W T }
{}
