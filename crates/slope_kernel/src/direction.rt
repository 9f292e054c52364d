//! What passes in one direction, by the fastest tier.

ghost use Rattle.std.specs.Prelude.{◌≡◌, ◌≤◌, ◌<◌, ◌^◌, length, All};
ghost use Rattle.block_layout.specs.Layouts.{len};
ghost use Rattle.block_layout.specs.Faces.{face_count};
ghost use Rattle.upwind_fluxes.specs.Fluxes.{OthersStay};
ghost use Rattle.slope_kernel.specs.Slopes.{SlopesAlong, SlopesPaid};

use crate::faces::write_slopes;
use block_layout::Layout;
use morton_order::Side;
use upwind_fluxes::{Donor, close_if};
use upwind_portions::{Fraction, Tier};

/// Writes what the cells at one side of the faces of an axis pay by a rate, where no total passes `greatest`.
fn write_direction(
    layout: &Layout,
    axis: u32,
    donor: Donor,
    fraction: &Fraction,
    greatest: u64,
    cells: &[u64],
    into: &mut [u64],
)
    requires axis { axis < layout.now.dims }
    requires cells { length cells.now ≡ len layout.now }
    requires faces { length into.old ≡ face_count layout.now }
    requires bound { All (λ t. t ≤ greatest) cells.now }
    requires small { greatest < 2 ^ 62 }
    ensures along { SlopesPaid layout.now axis donor fraction.now.rate fraction.now.denominator cells.now into.new }
    ensures others { OthersStay layout.now axis into.old into.new }
{
    match fraction.tier(greatest) {
        Tier::Nothing(portions) => write_slopes(layout, axis, donor, portions, cells, into),
        Tier::Small(portions) => write_slopes(layout, axis, donor, portions, cells, into),
        Tier::Word(portions) => write_slopes(layout, axis, donor, portions, cells, into),
        Tier::Any(portions) => write_slopes(layout, axis, donor, portions, cells, into),
    }
}

/// Writes what passes the faces of an axis in one direction; nothing passes a closed side.
pub(crate) fn slopes_along(
    layout: &Layout,
    axis: u32,
    donor: Donor,
    fraction: &Fraction,
    greatest: u64,
    closed: &[bool; 6],
    cells: &[u64],
    into: &mut [u64],
)
    requires axis { axis < layout.now.dims }
    requires cells { length cells.now ≡ len layout.now }
    requires faces { length into.old ≡ face_count layout.now }
    requires bound { All (λ t. t ≤ greatest) cells.now }
    requires small { greatest < 2 ^ 62 }
    ensures along { SlopesAlong layout.now axis donor fraction.now closed.now cells.now into.new }
    ensures others { OthersStay layout.now axis into.old into.new }
{
    write_direction(layout, axis, donor, fraction, greatest, cells, into);
    let low = Side { axis, high: false };
    close_if(layout, low, closed[2 * axis as usize], cells, into);
    let high = Side { axis, high: true };
    close_if(layout, high, closed[2 * axis as usize + 1], cells, into);
}
