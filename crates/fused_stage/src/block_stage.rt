//! The next totals of a block, from its cells and ghosts.

ghost use Rattle.std.specs.Prelude.{◌≡◌, ◌<◌, ◌≤◌, ◌^◌, All, length};
ghost use Rattle.block_layout.specs.Layouts.{len};
ghost use Rattle.transport_kernel.specs.Update.{GhostsStay};
ghost use Rattle.upwind_fluxes.specs.Multipliers.{AreOf};
ghost use Rattle.fused_stage.specs.Stage.{CanStage, IsStaged};
ghost use Rattle.fused_stage.specs.Layers.{CanPassLayers, HasLayers, after_axis, axis_pass};

use crate::start::{FromCells, FromWritten, Start};
use crate::tiers::pass_along;
use block_layout::Layout;
use upwind_fluxes::{Donor, LevelRates, Multipliers, greatest_bits};

/// Writes the totals of the interior cells of a block after a stage by the upwind rule of the first order: each cell
/// gains what comes in through its faces and loses what goes out, each the portion of the paying cell's total,
/// floored; nothing passes a closed side. It is what `fluxes` and `update` of `transport_kernel` make of the same
/// cells.
///
/// `cells` has the ghosts filled. `into` has a place for each cell and ghost too; its ghosts stay as they are.
/// `closed` is in the order x1 low, x1 high, x2 low, x2 high, x3 low, x3 high. The multipliers are made once for a
/// field and a level, and serve any number of blocks. No cell may pay more than it has.
pub fn stage(
    layout: &Layout,
    rates: &LevelRates,
    multipliers: &Multipliers,
    closed: &[bool; 6],
    cells: &[u64],
    into: &mut [u64],
)
    requires cell_list { length cells.now ≡ len layout.now }
    requires new_list { length into.old ≡ len layout.now }
    requires of_rates { AreOf rates.now multipliers.now }
    requires small { All (λ t. t < 2 ^ 62) cells.now }
    requires passes { CanStage layout.now rates.now closed.now cells.now }
    ensures staged { IsStaged layout.now rates.now closed.now cells.now into.new }
    ensures ghosts { GhostsStay layout.now into.old into.new }
{
    let greatest = greatest_bits(cells);
    let right = multipliers.along(0, Donor::Below);
    let left = multipliers.along(0, Donor::Above);
    pass_along(
        layout, 0, FromCells, &right, &left, greatest, closed, cells, into,
    );
    for axis in 1..layout.dims {
        let right = multipliers.along(axis, Donor::Below);
        let left = multipliers.along(axis, Donor::Above);
        pass_along(
            layout,
            axis,
            FromWritten,
            &right,
            &left,
            greatest,
            closed,
            cells,
            into,
        );
    }
}
