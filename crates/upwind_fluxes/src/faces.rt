//! What passes the faces of one axis in one direction.

ghost use Rattle.std.specs.Prelude.{◌≡◌, ◌≤◌, ◌<◌, length, All};
ghost use Rattle.block_layout.specs.Layouts.{len};
ghost use Rattle.block_layout.specs.Faces.{face_count, face_extents};
ghost use Rattle.upwind_fluxes.specs.Beside.{cells_beside};
ghost use Rattle.upwind_fluxes.specs.Fluxes.{OthersStay, PaysAlong};

use crate::donor::Donor;
use crate::portion_row::PortionRow;
use block_layout::Layout;
use cell_boxes::{BoxIn, write_box};
use upwind_portions::Portions;

/// The faces of an axis along each axis: as many as cells, and one more along the axis itself.
pub fn face_extents(layout: &Layout, axis: u32) -> [usize; 3]
    requires { axis < layout.now.dims }
    ensures { result ≡ face_extents layout.now axis }
{
    let mut extents = [
        layout.cells[0] as usize,
        layout.cells[1] as usize,
        layout.cells[2] as usize,
    ];
    extents[axis as usize] += 1;
    extents
}

/// The cells of a block that stand at one side of the faces of an axis.
fn beside(layout: &Layout, axis: u32, donor: Donor) -> BoxIn
    requires { axis < layout.now.dims }
    ensures { result ≡ cells_beside layout.now axis donor }
{
    let mut low = [
        layout.ghost_layers(0),
        layout.ghost_layers(1),
        layout.ghost_layers(2),
    ];
    if donor == Donor::Below {
        low[axis as usize] -= 1;
    }
    BoxIn {
        first: 0,
        widths: [layout.width(0), layout.width(1), layout.width(2)],
        low,
    }
}

/// Writes what the cells at one side of the faces of an axis pay; the faces of the other axes stay as they are.
pub(crate) fn write_portions<P: Portions>(
    layout: &Layout,
    axis: u32,
    donor: Donor,
    portions: P,
    cells: &[u64],
    into: &mut [u64],
)
    requires axis { axis < layout.now.dims }
    requires cells { length cells.now ≡ len layout.now }
    requires faces { length into.old ≡ face_count layout.now }
    requires small { All (λ t. t ≤ P.greatest portions) cells.now }
    ensures along { PaysAlong layout.now axis donor (P.rate portions) (P.denominator portions) cells.now into.new }
    ensures others { OthersStay layout.now axis into.old into.new }
{
    let extents = face_extents(layout, axis);
    let faces = BoxIn {
        first: layout.first_face(axis),
        widths: extents,
        low: [0, 0, 0],
    };
    write_box(
        &PortionRow { portions },
        extents,
        cells,
        beside(layout, axis, donor),
        into,
        faces,
    );
}
