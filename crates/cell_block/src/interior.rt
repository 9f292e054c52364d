//! The interior of a block in the list of a buffer.

ghost use Rattle.std.specs.Prelude.{◌≡◌, length};
ghost use Rattle.block_layout.specs.Indices.{count_of};
ghost use Rattle.block_layout.specs.Layouts.{len};
ghost use Rattle.block_regions.specs.Boxes.{AreFew};
ghost use Rattle.cell_block.specs.Rules.{interior_of};
ghost use Rattle.cell_block.specs.Whole.{extents_of, interior_box};

use block_layout::Layout;
use block_regions::whole;
use cell_boxes::{BoxIn, CopyRow, write_box};

/// The cells of a block along each axis.
fn extents_of(layout: &Layout) -> [usize; 3]
    ensures value { result ≡ extents_of layout.now }
    ensures few { AreFew result }
{
    [
        layout.cells[0] as usize,
        layout.cells[1] as usize,
        layout.cells[2] as usize,
    ]
}

/// The interior of a block in its list.
fn interior_box(layout: &Layout) -> BoxIn
    ensures { result ≡ interior_box layout.now }
{
    BoxIn {
        first: 0,
        widths: [layout.width(0), layout.width(1), layout.width(2)],
        low: [
            layout.ghost_layers(0),
            layout.ghost_layers(1),
            layout.ghost_layers(2),
        ],
    }
}

/// Writes the totals of a block's own cells, x1 fastest, by a list that has its ghosts too.
pub fn write_interior(layout: &Layout, cells: &[u64], into: &mut [u64])
    requires cells { length cells.now ≡ len layout.now }
    requires into { length into.old ≡ count_of layout.now.cells }
    ensures { into.new ≡ interior_of layout.now cells.now }
{
    let extents = extents_of(layout);
    let from_box = interior_box(layout);
    let into_box = whole(extents);
    write_box(&CopyRow, extents, cells, from_box, into, into_box);
}
