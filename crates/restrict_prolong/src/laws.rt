//! What holds of restriction and prolongation.

ghost use Rattle.restrict_prolong.specs.Laws.{SharesAreRestored};

/// The shares of a coarse cell add up to it: restriction gives back what was prolonged.
pub fn restriction_laws()
    ensures { SharesAreRestored }
{}
