//! Sums of what passes the finer faces.

ghost use Rattle.std.specs.Prelude.{◌≡◌, ◌+◌, ◌<◌, ◌^◌, IfOk, length};
ghost use Rattle.block_layout.specs.Indices.{count_of};
ghost use Rattle.block_layout.specs.Faces.{face_count};
ghost use Rattle.flux_correct.specs.Sums.{coarse_extents as coarse_extents_of, flux_part, flux_sums};
ghost use Rattle.flux_correct.specs.Boxes.{SumsBelow};

use crate::side_faces::{coarse_extents, face_factors, faces_box, side_faces};
use block_layout::Layout;
use block_regions::{cell_count, whole};
use cell_lists::{Cells, NoMemory};
use morton_order::Side;
use restrict_prolong::restrict_box;
use std::alloc::Global;

/// Writes the sums of what passes in one direction.
fn write_sums(layout: &Layout, side: Side, list: &[u64], sums: &mut [u64])
    requires axis { side.axis < layout.now.dims }
    requires list { length list.now ≡ face_count layout.now }
    requires sums { length sums.old ≡ count_of (coarse_extents_of layout.now side.axis) }
    requires small { SumsBelow (2 ^ 64) layout.now side.axis side.high list.now }
    ensures { sums.new ≡ flux_sums layout.now side.axis side.high list.now }
{
    let extents = coarse_extents(layout, side.axis);
    let region = side_faces(layout, side);
    let each = face_factors(layout, side.axis);
    let from_box = faces_box(layout, side.axis, region.low);
    let into_box = whole(extents);
    restrict_box(each, extents, list, from_box, sums, into_box);
}

/// Writes a flux part.
fn write_part(layout: &Layout, side: Side, right: &[u64], left: &[u64], part: &mut [u64])
    requires axis { side.axis < layout.now.dims }
    requires right_list { length right.now ≡ face_count layout.now }
    requires left_list { length left.now ≡ face_count layout.now }
    requires part { length part.old ≡ count_of (coarse_extents_of layout.now side.axis)
        + count_of (coarse_extents_of layout.now side.axis) }
    requires right_small { SumsBelow (2 ^ 64) layout.now side.axis side.high right.now }
    requires left_small { SumsBelow (2 ^ 64) layout.now side.axis side.high left.now }
    ensures { part.new ≡ flux_part layout.now side.axis side.high right.now left.now }
{
    let extents = coarse_extents(layout, side.axis);
    let (rights, lefts) = part.split_at_mut(cell_count(&extents));
    write_sums(layout, side, right, rights);
    write_sums(layout, side, left, lefts);
}

/// Makes a field's part of the flux letter to the coarser leaf behind a side of the sender, from what passes its faces:
/// for each of the receiver's faces the sum over those of the sender, all to the right, then all to the left.
///
/// `side` is the sender's own. The sums are below 2^64.
pub fn gather(
    alloc: Global,
    layout: &Layout,
    side: Side,
    right: &[u64],
    left: &[u64],
) -> Result<Cells, NoMemory>
    requires axis { side.axis < layout.now.dims }
    requires right_list { length right.now ≡ face_count layout.now }
    requires left_list { length left.now ≡ face_count layout.now }
    requires right_small { SumsBelow (2 ^ 64) layout.now side.axis side.high right.now }
    requires left_small { SumsBelow (2 ^ 64) layout.now side.axis side.high left.now }
    ensures { IfOk result (λ part. part ≡ flux_part layout.now side.axis side.high right.now left.now) }
{
    let extents = coarse_extents(layout, side.axis);
    let count = cell_count(&extents);
    let mut part = vec![in alloc; 0u64; count + count]?;
    write_part(layout, side, right, left, part.as_mut_slice());
    Ok(Cells::of(part))
}
