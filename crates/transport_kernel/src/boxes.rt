//! Where the cells and the faces of a block lie.

ghost use Rattle.std.specs.Prelude.{◌≡◌, ◌<◌, ◌≤◌, slice_index};
ghost use Rattle.block_layout.specs.Faces.{face_extents};
ghost use Rattle.transport_kernel.specs.Axis.{cell_extents, cells_box, faces_box};

use block_layout::Layout;
use box_updates::BoxIn;

/// The cells of a block along each axis.
pub(crate) fn cell_extents(layout: &Layout) -> [usize; 3]
    ensures { result ≡ cell_extents layout.now }
{
    [
        layout.cells[0] as usize,
        layout.cells[1] as usize,
        layout.cells[2] as usize,
    ]
}

/// The interior of a block in its list.
pub(crate) fn interior_box(layout: &Layout) -> BoxIn
    ensures { result ≡ cells_box layout.now }
{
    BoxIn {
        first: 0,
        widths: [layout.width(0), layout.width(1), layout.width(2)],
        low: [
            layout.ghost_layers(0),
            layout.ghost_layers(1),
            layout.ghost_layers(2),
        ],
    }
}

/// The faces of an axis along each axis.
pub(crate) fn face_widths(layout: &Layout, axis: u32) -> [usize; 3]
    requires { axis < layout.now.dims }
    ensures value { result ≡ face_extents layout.now axis }
    ensures most { (slice_index result 0 ≤ 65) × (slice_index result 1 ≤ 65) }
{
    let mut extents = cell_extents(layout);
    extents[axis as usize] += 1;
    extents
}

/// The faces of an axis at the high or the low side of each cell.
pub(crate) fn faces_beside(layout: &Layout, axis: u32, high: bool) -> BoxIn
    requires { axis < layout.now.dims }
    ensures { result ≡ faces_box layout.now axis high }
{
    let mut low = [0, 0, 0];
    if high {
        low[axis as usize] = 1;
    }
    BoxIn {
        first: layout.first_face(axis),
        widths: face_widths(layout, axis),
        low,
    }
}
