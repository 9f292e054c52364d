//! Laws of journals, whatever the kernels of their cycle.

ghost use Rattle.cycle_events.specs.Changes.{DeliveriesMake, GivesMake};
ghost use Rattle.cycle_events.specs.Epochs.{EpochsAreTold, FreshPacksAreTrue, PacksStayTrue, TakesTellPacks};
ghost use Rattle.cycle_events.specs.Laws.{EventsAreCounted, HistoriesAreTold, IdleCountsWait, JournalsAreHistories, JournalsEndMasked, JournalsGoOn, JournalsStayMasked, NeverStuck};
ghost use Rattle.cycle_events.specs.Leases.{LeasesHold, LeasesStayOut, PlacesRise, TakesLend};

/// Without its tasks and places a journal is a history of the protocol; each history is told by one journal and by no
/// other; and a journal goes on with the events that are legal in its state.
pub fn history_law<X, V, G, F, P, W>()
    ensures history { JournalsAreHistories X V G F P W }
    ensures told { HistoriesAreTold X V G F P W }
    ensures legal { JournalsGoOn X V G F P W }
{}

/// The state that a journal leads to agrees with the masked serial run, as far as each list has come.
pub fn agreement_law<X, V, G, F, P, W>()
    ensures places { JournalsStayMasked X V G F P W }
    ensures idle { IdleCountsWait X V G F P W }
{}

/// A complete journal ends as the masked serial run does, one that is not complete can go on, and none is longer than
/// a complete one.
pub fn end_law<X, V, G, F, P, W>()
    ensures end { JournalsEndMasked X V G F P W }
    ensures stuck { NeverStuck X V G F P W }
    ensures count { EventsAreCounted X V G F P W }
{}

/// The epoch of a list counts the changes of its buffers, and tells whether a pack has the places of its list.
pub fn epoch_law<X, V, G, F, P, W>()
    ensures epoch { EpochsAreTold X V G F P W }
    ensures stay { PacksStayTrue X V G F P W }
    ensures fresh { FreshPacksAreTrue X V G F P W }
    ensures take { TakesTellPacks X V G F P W }
{}

/// Places stand by block, then field, none twice. A lease has its task's places with their buffers, which agree with
/// the mesh of its stage, and while it is out no other event changes them.
pub fn lease_law<X, V, G, F, P, W>()
    ensures rise { PlacesRise }
    ensures take { TakesLend X V G F P W }
    ensures holds { LeasesHold X V G F P W }
    ensures stays { LeasesStayOut X V G F P W }
{}

/// Which places a delivery makes, and which ones a Give makes and frees.
pub fn change_law<X, V, G, F, P, W>()
    ensures deliver { DeliveriesMake X V G F P W }
    ensures give { GivesMake X V G F P W }
{}
