//! A box that is written row by row.

ghost use Rattle.std.specs.Prelude.{◌≡◌, ◌<◌, ℕ, List, length, slice_index};
ghost use Rattle.block_layout.specs.Indices.{IsWithin};
ghost use Rattle.cell_boxes.specs.Boxes.{HasCells, IsBoxIn, StaysOffBox, address};

use crate::row_starts::row_start;
use cell_boxes::BoxIn;

/// What the rows of a box become, by where they lie in it.
pub trait BoxRows {
    /// What becomes of the number at x along a row of a plane, by another list.
    ghost gives: { Self → List ℕ → ℕ → ℕ → ℕ → ℕ };

    /// What is asked of that list, of the length of the row and of where it lies.
    ghost asks: { Self → List ℕ → ℕ → ℕ → ℕ → Type 0 };

    /// Writes a row.
    fn write_row(&self, from: &[u64], row: usize, plane: usize, into: &mut [u64])
        requires { asks self.now from.now (length into.old) row plane }
        ensures { (x : ℕ) → x < length into.old → slice_index into.new x ≡ gives self.now from.now x row plane };
}

/// Writes the rows of a box of these extents.
pub fn write_box_rows<R: BoxRows>(
    op: &R,
    extents: [usize; 3],
    from: &[u64],
    into: &mut [u64],
    into_box: BoxIn,
)
    requires cells { HasCells extents }
    requires into { IsBoxIn extents into_box (length into.old) }
    requires asks { (row plane : ℕ) → row < slice_index extents 1 → plane < slice_index extents 2
        → R.asks op.now from.now (slice_index extents 0) row plane }
    ensures inside { (i : List ℕ) → IsWithin extents i
        → slice_index into.new (address into_box i)
        ≡ R.gives op.now from.now (slice_index i 0) (slice_index i 1) (slice_index i 2) }
    ensures outside { StaysOffBox extents into_box into.old into.new }
{
    for plane in 0..extents[2] {
        for row in 0..extents[1] {
            let at = row_start(&extents, &into_box, into.len(), row, plane);
            op.write_row(from, row, plane, &mut into[at..at + extents[0]]);
        }
    }
}
