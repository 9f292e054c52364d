//! Closed sides.

ghost use Rattle.std.specs.Prelude.{◌≡◌, ◌<◌, length};
ghost use Rattle.block_layout.specs.Layouts.{len};
ghost use Rattle.block_layout.specs.Faces.{face_count};
ghost use Rattle.upwind_fluxes.specs.Fluxes.{OthersStay};
ghost use Rattle.upwind_fluxes.specs.Sides.{ClosesIf, IsClosedAt, StaysOff, side_box, side_extents};

use crate::faces::face_extents;
use block_layout::Layout;
use cell_boxes::{BoxIn, ZeroRow, write_box};
use morton_order::Side;

/// Where the faces at a side lie among the faces of its axis.
fn faces_at(layout: &Layout, side: Side) -> BoxIn
    requires { side.axis < layout.now.dims }
    ensures { result ≡ side_box layout.now side.axis side.high }
{
    let mut low = [0, 0, 0];
    if side.high {
        low[side.axis as usize] = layout.cells[side.axis as usize] as usize;
    }
    BoxIn {
        first: layout.first_face(side.axis),
        widths: face_extents(layout, side.axis),
        low,
    }
}

/// The faces at a side along each axis: one along its own.
fn extents_at(layout: &Layout, side: Side) -> [usize; 3]
    requires { side.axis < layout.now.dims }
    ensures { result ≡ side_extents layout.now side.axis }
{
    let mut extents = [
        layout.cells[0] as usize,
        layout.cells[1] as usize,
        layout.cells[2] as usize,
    ];
    extents[side.axis as usize] = 1;
    extents
}

/// Nothing passes the faces at a side; all other faces stay as they are.
fn close_side(layout: &Layout, side: Side, cells: &[u64], into: &mut [u64])
    requires axis { side.axis < layout.now.dims }
    requires cells { length cells.now ≡ len layout.now }
    requires faces { length into.old ≡ face_count layout.now }
    ensures closed { IsClosedAt layout.now side.axis side.high into.new }
    ensures open_faces { StaysOff layout.now side.axis side.high into.old into.new }
    ensures others { OthersStay layout.now side.axis into.old into.new }
{
    let whole = BoxIn {
        first: 0,
        widths: [layout.width(0), layout.width(1), layout.width(2)],
        low: [0, 0, 0],
    };
    write_box(
        &ZeroRow,
        extents_at(layout, side),
        cells,
        whole,
        into,
        faces_at(layout, side),
    );
}

/// Nothing passes the faces at a side that is closed; all other faces stay as they are. The cells are read nowhere.
pub fn close_if(layout: &Layout, side: Side, closed: bool, cells: &[u64], into: &mut [u64])
    requires axis { side.axis < layout.now.dims }
    requires cells { length cells.now ≡ len layout.now }
    requires faces { length into.old ≡ face_count layout.now }
    ensures along { ClosesIf closed layout.now side.axis side.high into.old into.new }
    ensures others { OthersStay layout.now side.axis into.old into.new }
{
    if closed {
        close_side(layout, side, cells, into);
    }
}
