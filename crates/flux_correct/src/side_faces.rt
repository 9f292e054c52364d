//! The faces at a side of a block.

ghost use Rattle.std.specs.Prelude.{◌≡◌, ◌<◌};
ghost use Rattle.cell_boxes.specs.Boxes.{HasCells};
ghost use Rattle.block_regions.specs.Boxes.{AreFew, IsRegion, IsSmall, IsWide};
ghost use Rattle.flux_correct.specs.Sums.{coarse_extents as coarse_extents_of, face_factors as factors_of, side_faces as side_faces_of};
ghost use Rattle.flux_correct.specs.Corrected.{covered};
ghost use Rattle.flux_correct.specs.Boxes.{LiesInFaces, faces_box as faces_box_of};

use block_layout::Layout;
use block_regions::{BlockRegion, beside_part};
use cell_boxes::BoxIn;
use morton_order::Side;
use restrict_prolong::factors;

/// The faces at a side, as a box of the faces of its axis.
pub(crate) fn side_faces(layout: &Layout, side: Side) -> BlockRegion
    requires { side.axis < layout.now.dims }
    ensures region { IsRegion (side_faces_of layout.now side.axis side.high) result }
    ensures lies { LiesInFaces layout.now side.axis result }
    ensures small { IsSmall result }
    ensures wide { IsWide layout.now.dims side.axis result.extents }
{
    let mut low = [0, 0, 0];
    if side.high {
        low[side.axis as usize] = layout.cells[side.axis as usize] as usize;
    }
    let mut extents = [
        layout.cells[0] as usize,
        layout.cells[1] as usize,
        layout.cells[2] as usize,
    ];
    extents[side.axis as usize] = 1;
    BlockRegion { low, extents }
}

/// Where the faces of an axis lie in a list of faces, from an index on.
pub(crate) fn faces_box(layout: &Layout, axis: u32, low: [usize; 3]) -> BoxIn
    requires { axis < layout.now.dims }
    ensures { result ≡ faces_box_of layout.now axis low }
{
    let mut widths = [
        layout.cells[0] as usize,
        layout.cells[1] as usize,
        layout.cells[2] as usize,
    ];
    widths[axis as usize] += 1;
    BoxIn {
        first: layout.first_face(axis),
        widths,
        low,
    }
}

/// How many faces of the finer block make one of the coarser along each axis.
pub(crate) fn face_factors(layout: &Layout, axis: u32) -> [usize; 3]
    requires { axis < layout.now.dims }
    ensures { result ≡ factors_of layout.now.dims axis }
{
    let mut each = factors(layout.dims);
    each[axis as usize] = 1;
    each
}

/// The faces at a side beside a part of it.
pub(crate) fn covered_faces(layout: &Layout, side: Side, half: u32) -> BlockRegion
    requires axis { side.axis < layout.now.dims }
    requires half { half < 4 }
    ensures region { IsRegion (covered layout.now side.axis side.high half) result }
    ensures cells { HasCells result.extents }
    ensures lies { LiesInFaces layout.now side.axis result }
{
    beside_part(layout, side.axis, half, &side_faces(layout, side))
}

/// The faces of the coarser block along each axis.
pub(crate) fn coarse_extents(layout: &Layout, axis: u32) -> [usize; 3]
    requires { axis < layout.now.dims }
    ensures extents { result ≡ coarse_extents_of layout.now axis }
    ensures cells { HasCells result }
    ensures few { AreFew result }
{
    let side = Side { axis, high: false };
    covered_faces(layout, side, 0).extents
}
