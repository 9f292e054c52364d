//! The laws of buffers.

ghost use Rattle.state_bounds.specs.Bounds.{CellsAreSmall, StagesMayGoOn};
ghost use Rattle.state_bounds.specs.Corners.{CornersStayEmpty};
ghost use Rattle.state_bounds.specs.Counts.{IdleCountsAreLow};

/// In a stage the sums in a part of a ghost letter are below 2^62, a buffer with its ghosts has totals below 2^62, the
/// sums of a flux letter are below 2^64, no cell pays more than it has and none comes to 2^63. Before the reaction the
/// totals of all fields in a cell add up to less than 2^62.
pub fn bound_law()
    ensures stages { StagesMayGoOn }
    ensures cells { CellsAreSmall }
{}

/// Nothing ever stands in a corner of the ghosts.
pub fn corner_law()
    ensures { CornersStayEmpty }
{}

/// Before the check an idle count is below that at which a field is freed.
pub fn idle_law()
    ensures { IdleCountsAreLow }
{}
