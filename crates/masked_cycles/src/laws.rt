//! Laws of the masked serial run of a mesh's kernels.

ghost use Rattle.masked_cycles.specs.Cycles.{AllSumsAgree, ChecksAgree, ReactionsAgree, StagesAgree};
ghost use Rattle.masked_cycles.specs.Cycles.{StartsAreStarts, WishesAgree};
ghost use Rattle.masked_cycles.specs.Ends.{CyclesEnd};
ghost use Rattle.masked_cycles.specs.States.{LettersHold, StatesHold};
ghost use Rattle.masked_cycles.specs.Wishes.{AllTagsFollow};

/// The run starts as a masked serial run may.
pub fn start_law()
    ensures { StartsAreStarts }
{}

/// After each stage the run has, on each leaf and for each field, the totals and the mask of the cycle, and has
/// counted what was dropped and has flowed.
pub fn staged_law()
    ensures { StagesAgree }
{}

/// So it has after the reaction, and after the check, at the end of the cycle.
pub fn ended_law()
    ensures reacted { ReactionsAgree }
    ensures checked { ChecksAgree }
{}

/// After the reaction each block wishes what the leaf wishes, so that the tags and the counters of the cycle follow.
pub fn wish_law()
    ensures wishes { WishesAgree }
    ensures tags { AllTagsFollow }
{}

/// What was dropped and has flowed of a field, summed over all blocks, is what the cycle drops and what flows in it.
pub fn sum_law()
    ensures { AllSumsAgree }
{}

/// Every complete list of events over the blocks of a mesh ends, on each leaf and for each field, with what the cycle
/// of the rules leaves: totals, mask, buffers, wishes, drops and flows.
pub fn cycle_law()
    ensures { CyclesEnd }
{}

/// After any legal list of events each buffer has, by how far its list has come, the totals, the look in its ghosts
/// and the pairs of the mesh of its stage, and the mask and the sums of the cycle; and each letter has the region, or
/// the sums of pairs, that the rules name.
pub fn state_law()
    ensures states { StatesHold }
    ensures letters { LettersHold }
{}
