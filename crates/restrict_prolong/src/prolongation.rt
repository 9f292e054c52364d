//! Shares of coarse cells.

ghost use Rattle.std.specs.Prelude.{◌≡◌, ◌≤◌, length};
ghost use Rattle.cell_boxes.specs.Boxes.{HasCells, IsBoxIn, StaysOffBox};
ghost use Rattle.restrict_prolong.specs.Refined.{factors, refined};
ghost use Rattle.restrict_prolong.specs.Boxes.{HasShares};

use crate::shares::{Shares, refined_extents};
use block_regions::write_box_rows;
use cell_boxes::BoxIn;

/// Writes the fine cells in a box of coarse ones of these extents, each by its share of the coarse cell that it lies
/// in. Along each axis in use two fine cells lie in a coarse one.
pub fn prolong_box(
    dims: u32,
    extents: [usize; 3],
    from: &[u64],
    from_box: BoxIn,
    into: &mut [u64],
    into_box: BoxIn,
)
    requires least { 1 ≤ dims }
    requires most { dims ≤ 3 }
    requires cells { HasCells extents }
    requires from { IsBoxIn extents from_box (length from.now) }
    requires into { IsBoxIn (refined (factors dims) extents) into_box (length into.old) }
    ensures inside { HasShares dims (refined (factors dims) extents) from.now from_box into.new into_box }
    ensures outside { StaysOffBox (refined (factors dims) extents) into_box into.old into.new }
{
    let shares = Shares {
        dims,
        coarse: extents,
        from_box,
    };
    let fine = refined_extents(dims, extents);
    write_box_rows(&shares, fine, from, into, into_box);
}
