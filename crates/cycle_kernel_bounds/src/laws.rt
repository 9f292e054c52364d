//! The laws of conditions.

ghost use Rattle.cycle_kernel_bounds.specs.Bounds.{GhostsAreSmall, PartsMayBeFilled};
ghost use Rattle.cycle_kernel_bounds.specs.Bounds.{SumsMayBeGathered, UpdatesMayPass};

/// The sums of a part of a ghost letter are below 2^62, and so are a block's totals with its ghosts.
pub fn exchange_bounds()
    ensures parts { PartsMayBeFilled }
    ensures ghosts { GhostsAreSmall }
{}

/// The sums of a flux letter are below 2^64, and no cell pays more than it has or comes to 2^63.
pub fn stage_bounds()
    ensures sums { SumsMayBeGathered }
    ensures updates { UpdatesMayPass }
{}
