//! Sums of fine cells.

ghost use Rattle.std.specs.Prelude.{◌≡◌, ◌^◌, length};
ghost use Rattle.cell_boxes.specs.Boxes.{HasCells, IsBoxIn, StaysOffBox};
ghost use Rattle.restrict_prolong.specs.Refined.{refined};
ghost use Rattle.restrict_prolong.specs.Boxes.{AreFactors, HasSums, SumsBelow};

use crate::sums::Sums;
use block_regions::write_box_rows;
use cell_boxes::BoxIn;

/// Writes a box of coarse cells of these extents by the sums over the fine cells of another list's box. Along each
/// axis one fine cell lies in a coarse one, or two.
pub fn restrict_box(
    factors: [usize; 3],
    extents: [usize; 3],
    from: &[u64],
    from_box: BoxIn,
    into: &mut [u64],
    into_box: BoxIn,
)
    requires factors { AreFactors factors }
    requires cells { HasCells extents }
    requires from { IsBoxIn (refined factors extents) from_box (length from.now) }
    requires into { IsBoxIn extents into_box (length into.old) }
    requires small { SumsBelow (2 ^ 64) factors extents from.now from_box }
    ensures inside { HasSums factors extents from.now from_box into.new into_box }
    ensures outside { StaysOffBox extents into_box into.old into.new }
{
    let fine = [
        factors[0] * extents[0],
        factors[1] * extents[1],
        factors[2] * extents[2],
    ];
    let sums = Sums {
        factors,
        extents,
        fine,
        from_box,
    };
    write_box_rows(&sums, extents, from, into, into_box);
}
