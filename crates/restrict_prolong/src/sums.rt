//! Rows of sums over fine cells.

ghost use Rattle.std.specs.Prelude.{◌≡◌, ◌*◌, ◌<◌, ◌^◌, [], ◌∷◌, length, slice_index};
ghost use Rattle.restrict_prolong.specs.Rows.{AddsPlane, AreSums, PlaneBelow};

use crate::row_sums::add_row;
use block_regions::{BoxRows, row_start};
use cell_boxes::BoxIn;

/// The sums over the fine cells of a box.
#[derive(Clone, Copy)]
pub(crate) struct Sums {
    /// How many fine cells lie in a coarse one along each axis.
    pub(crate) factors: [usize; 3],
    /// The coarse cells along each axis, and the fine ones.
    pub(crate) extents: [usize; 3],
    pub(crate) fine: [usize; 3],
    pub(crate) from_box: BoxIn,
}

/// Adds the fine rows of a plane that lie in a coarse row.
fn add_rows(op: &Sums, from: &[u64], row: usize, plane: usize, into: &mut [u64])
    requires sums { AreSums op.now from.now (length into.old) }
    requires row { row < slice_index op.now.extents 1 }
    requires plane { plane < slice_index op.now.fine 2 }
    requires small { PlaneBelow (2 ^ 64) op.now from.now row plane into.old }
    ensures { AddsPlane op.now from.now row plane into.old into.new }
{
    for b in 0..op.factors[1] {
        let y = op.factors[1] * row + b;
        let at = row_start(&op.fine, &op.from_box, from.len(), y, plane);
        add_row(op.factors[0], &from[at..at + op.fine[0]], into);
    }
}

impl BoxRows for Sums {
    ghost use Rattle.restrict_prolong.specs.Refined.{sum_in};
    ghost use Rattle.restrict_prolong.specs.Boxes.{at_box};
    ghost use Rattle.restrict_prolong.specs.Rows.{IsSumRow};

    ghost gives = { λ s from x row plane. sum_in s.factors (at_box from s.from_box) (x ∷ row ∷ plane ∷ []) };

    ghost asks = { λ s from len row plane. IsSumRow s from len row plane };

    fn write_row(&self, from: &[u64], row: usize, plane: usize, into: &mut [u64]) {
        into.fill(0);
        for c in 0..self.factors[2] {
            let z = self.factors[2] * plane + c;
            add_rows(self, from, row, z, into);
        }
    }
}
