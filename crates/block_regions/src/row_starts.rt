//! Where the rows of a box begin.

ghost use Rattle.std.specs.Prelude.{◌≡◌, ◌+◌, ◌≤◌, slice_index};
ghost use Rattle.cell_boxes.specs.Boxes.{HasCells, IsBoxIn};
ghost use Rattle.block_regions.specs.Rows.{IsRowOf, row_start as row_start_of, whole_box};

use cell_boxes::BoxIn;

/// The place at which a row of a box of these extents begins in a list of so many numbers.
pub fn row_start(extents: &[usize; 3], b: &BoxIn, len: usize, row: usize, plane: usize) -> usize
    requires cells { HasCells extents.now }
    requires lies { IsBoxIn extents.now b.now len }
    requires row { IsRowOf extents.now row plane }
    ensures value { result ≡ row_start_of b.now row plane }
    ensures ends { result + slice_index extents.now 0 ≤ len }
{
    b.first + (b.low[0] + b.widths[0] * (b.low[1] + row + b.widths[1] * (b.low[2] + plane)))
}

/// A whole list as a box of these extents.
pub fn whole(extents: [usize; 3]) -> BoxIn
    ensures { result ≡ whole_box extents }
{
    BoxIn {
        first: 0,
        widths: extents,
        low: [0, 0, 0],
    }
}
