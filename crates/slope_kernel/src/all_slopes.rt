//! What passes all faces of a block.

ghost use Rattle.std.specs.Prelude.{◌≡◌, ◌≤◌, ◌<◌, ◌^◌, length, All};
ghost use Rattle.block_layout.specs.Layouts.{len};
ghost use Rattle.block_layout.specs.Faces.{face_count};
ghost use Rattle.upwind_fluxes.specs.declared.donor.Donor.TheVariants.{Below, Above};
ghost use Rattle.upwind_fluxes.specs.Multipliers.{AreOf};
ghost use Rattle.upwind_fluxes.specs.Rates.{AreProper};
ghost use Rattle.slope_kernel.specs.Slopes.{AreSlopeFluxes};

use crate::direction::slopes_along;
use block_layout::Layout;
use upwind_fluxes::{Donor, LevelRates, Multipliers, greatest_bits};

/// Writes what passes every face of a block by the second order: to the right, from the cell below the face, and to the
/// left, from the cell above it, each the upwind portion of the paying cell's total reconstructed at the face, floored;
/// nothing at a closed side.
///
/// `cells` has both layers of ghosts filled. `right` and `left` have the faces of x1, then of x2, then of x3, x1
/// fastest. `closed` is in the order x1 low, x1 high, x2 low, x2 high, x3 low, x3 high.
pub fn slope_fluxes(
    layout: &Layout,
    rates: &LevelRates,
    closed: [bool; 6],
    cells: &[u64],
    right: &mut [u64],
    left: &mut [u64],
)
    requires cell_list { length cells.now ≡ len layout.now }
    requires right_list { length right.old ≡ face_count layout.now }
    requires left_list { length left.old ≡ face_count layout.now }
    requires proper { AreProper rates.now }
    requires small { All (λ t. t < 2 ^ 62) cells.now }
    ensures right { AreSlopeFluxes layout.now Below rates.now closed cells.now right.new }
    ensures left { AreSlopeFluxes layout.now Above rates.now closed cells.now left.new }
{
    let multipliers = Multipliers::of(rates);
    slope_fluxes_by(layout, rates, &multipliers, &closed, cells, right, left);
}

/// The same by multipliers that were made before. They are made once for a field and a level, and serve any number of
/// blocks.
pub fn slope_fluxes_by(
    layout: &Layout,
    rates: &LevelRates,
    multipliers: &Multipliers,
    closed: &[bool; 6],
    cells: &[u64],
    right: &mut [u64],
    left: &mut [u64],
)
    requires cell_list { length cells.now ≡ len layout.now }
    requires right_list { length right.old ≡ face_count layout.now }
    requires left_list { length left.old ≡ face_count layout.now }
    requires of_rates { AreOf rates.now multipliers.now }
    requires small { All (λ t. t < 2 ^ 62) cells.now }
    ensures right { AreSlopeFluxes layout.now Below rates.now closed.now cells.now right.new }
    ensures left { AreSlopeFluxes layout.now Above rates.now closed.now cells.now left.new }
{
    let greatest = greatest_bits(cells);
    for axis in 0..layout.dims {
        let upwards = multipliers.along(axis, Donor::Below);
        slopes_along(
            layout,
            axis,
            Donor::Below,
            &upwards,
            greatest,
            closed,
            cells,
            right,
        );
        let downwards = multipliers.along(axis, Donor::Above);
        slopes_along(
            layout,
            axis,
            Donor::Above,
            &downwards,
            greatest,
            closed,
            cells,
            left,
        );
    }
}
