//! Sums in the place of what passed the coarser faces.

ghost use Rattle.std.specs.Prelude.{◌≡◌, ◌+◌, ◌<◌, length};
ghost use Rattle.block_layout.specs.Indices.{count_of};
ghost use Rattle.block_layout.specs.Faces.{face_count};
ghost use Rattle.flux_correct.specs.Sums.{coarse_extents as coarse_extents_of};
ghost use Rattle.flux_correct.specs.Corrected.{IsCorrected};

use crate::side_faces::{coarse_extents, covered_faces, faces_box};
use block_layout::Layout;
use block_regions::{cell_count, whole};
use cell_boxes::{CopyRow, write_box};
use morton_order::Side;

/// Writes the sums in one direction.
fn write_faces(layout: &Layout, side: Side, half: u32, sums: &[u64], list: &mut [u64])
    requires axis { side.axis < layout.now.dims }
    requires half { half < 4 }
    requires sums { length sums.now ≡ count_of (coarse_extents_of layout.now side.axis) }
    requires list { length list.old ≡ face_count layout.now }
    ensures { IsCorrected layout.now side.axis side.high half 0 sums.now list.old list.new }
{
    let extents = coarse_extents(layout, side.axis);
    let region = covered_faces(layout, side, half);
    let from_box = whole(extents);
    let into_box = faces_box(layout, side.axis, region.low);
    write_box(&CopyRow, extents, sums, from_box, list, into_box);
}

/// Puts the sums of a flux part in the place of what passes the faces at a side that the sender covers. All other faces
/// stay as they are.
///
/// `side` is the receiver's own, and `half` the part of it that the finer sender covers.
pub fn replace(
    layout: &Layout,
    side: Side,
    half: u32,
    part: &[u64],
    right: &mut [u64],
    left: &mut [u64],
)
    requires axis { side.axis < layout.now.dims }
    requires half { half < 4 }
    requires part { length part.now ≡ count_of (coarse_extents_of layout.now side.axis)
        + count_of (coarse_extents_of layout.now side.axis) }
    requires right_list { length right.old ≡ face_count layout.now }
    requires left_list { length left.old ≡ face_count layout.now }
    ensures rights { IsCorrected layout.now side.axis side.high half 0 part.now right.old right.new }
    ensures lefts { IsCorrected layout.now side.axis side.high half
        (count_of (coarse_extents_of layout.now side.axis)) part.now left.old left.new }
{
    let extents = coarse_extents(layout, side.axis);
    let count = cell_count(&extents);
    let (rights, lefts) = part.split_at(count);
    write_faces(layout, side, half, rights, right);
    write_faces(layout, side, half, lefts, left);
}
