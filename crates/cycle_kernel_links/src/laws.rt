//! The laws that tie the kernels of blocks to the functions of a cycle.

ghost use Rattle.cycle_kernel_links.specs.Cells.{AbsentIsNothing, GainsAreThose, ReactionsAreThose, WishesAreThose};
ghost use Rattle.cycle_kernel_links.specs.Ghosts.{FilledAreGhosts, FilledIsSent, GhostsStay};
ghost use Rattle.cycle_kernel_links.specs.Lists.{ListsComeApart};
ghost use Rattle.cycle_kernel_links.specs.Pairs.{FluxesAreListed, GatheredAreSent, PairsStay};
ghost use Rattle.cycle_kernel_links.specs.Pairs.{ReplacedAreCorrected, UpdatesAreThose};

/// A block's list is its own totals with its ghosts, and comes apart into them; a field without a buffer has no
/// totals.
pub fn list_law()
    ensures lists { ListsComeApart }
    ensures absent { AbsentIsNothing }
{}

/// What is filled of a block's list is the part of the letter, and ghosts that were written by all parts and by what
/// stands outside are those of the cycle. What is written for one letter or face leaves all others as they were.
pub fn ghost_laws()
    ensures filled { FilledIsSent }
    ensures unfilled { FilledAreGhosts }
    ensures stays { GhostsStay }
{}

/// What passes the faces of a block, and what its update leaves, is that of the cycle.
pub fn flux_laws()
    ensures listed { FluxesAreListed }
    ensures updated { UpdatesAreThose }
{}

/// The sums that are gathered are the part of the letter, and lists in which all parts were put are the corrected
/// ones. What is put in for one letter leaves all other faces as they were.
pub fn correction_laws()
    ensures gathered { GatheredAreSent }
    ensures replaced { ReplacedAreCorrected }
    ensures stays { PairsStay }
{}

/// A reaction of a block leaves the totals of the cycle and gains its flows, and the wish of a criterion is that of
/// the cycle.
pub fn cell_laws()
    ensures reacted { ReactionsAreThose }
    ensures gained { GainsAreThose }
    ensures wishes { WishesAreThose }
{}
