//! Laws of every legal list of events over sparse buffers, and of the masked serial run that it ends as.

ghost use Rattle.sparse_rounds.specs.Balance.{CycleBalances};
ghost use Rattle.sparse_rounds.specs.Corner.{CornersMeetTheLaws};
ghost use Rattle.sparse_rounds.specs.Dense.{MaskedIsDense};
ghost use Rattle.sparse_rounds.specs.Epochs.{EpochTells};
ghost use Rattle.sparse_rounds.specs.Row.{RowsMeetTheLaws};
ghost use Rattle.sparse_rounds.specs.Laws.{BuffersAreThose, EndsMasked, LettersStayTrue, StaysMasked};

/// Every state that is reached agrees with the masked serial run: values, ghosts, pairs, what is kept and where
/// buffers are, counts, sums and drops, and what letters hold.
pub fn masked_law<X, V, G, F, P, W>()
    ensures places { StaysMasked X V G F P W }
    ensures letters { LettersStayTrue X V G F P W }
    ensures buffers { BuffersAreThose X V G F P W }
{}

/// Every complete list of events ends as the masked serial run does, whatever its order.
pub fn end_law<X, V, G, F, P, W>()
    ensures { EndsMasked X V G F P W }
{}

/// At zero thresholds the masked serial run is the dense run.
pub fn dense_law<X, V, G, F, P, W>()
    ensures { MaskedIsDense X V G F P W }
{}

/// A cycle balances, with what it drops, where one stage and one reaction of any mesh do.
pub fn balance_law<X, V, G, F, P, W>()
    ensures { CycleBalances X V G F P W }
{}

/// While the epoch of a list stays, the places that each of its tasks would be lent stay.
pub fn epoch_law<X, V, G, F, P, W>()
    ensures { EpochTells X V G F P W }
{}

/// The kernels of a row of blocks of one level meet the laws, and at zero thresholds those of zero thresholds.
pub fn row_law()
    ensures { RowsMeetTheLaws }
{}

/// The kernels of a coarse block beside two finer ones, with sums, shares and flux letters, meet the laws.
pub fn corner_law()
    ensures { CornersMeetTheLaws }
{}
