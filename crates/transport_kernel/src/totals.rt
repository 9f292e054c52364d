//! The next totals of a block, by what passes its faces.

ghost use Rattle.std.specs.Prelude.{◌≡◌, ◌<◌, length};
ghost use Rattle.block_layout.specs.Layouts.{len};
ghost use Rattle.block_layout.specs.Faces.{face_count};
ghost use Rattle.transport_kernel.specs.Axis.{CanPassAlong, HasPassedAlong};
ghost use Rattle.transport_kernel.specs.Update.{CanPass, GhostsStay, HasPassed, listed};

use crate::boxes::{cell_extents, faces_beside, interior_box};
use block_layout::Layout;
use box_updates::update_box;
use stage_rules::FacePass;

/// Each interior cell gains and loses what passes its two faces of an axis.
fn update_along(layout: &Layout, axis: u32, cells: &mut [u64], right: &[u64], left: &[u64])
    requires axis { axis < layout.now.dims }
    requires cell_list { length cells.old ≡ len layout.now }
    requires right_list { length right.now ≡ face_count layout.now }
    requires left_list { length left.now ≡ face_count layout.now }
    requires passes { CanPassAlong layout.now axis (listed layout.now right.now)
        (listed layout.now left.now) cells.old }
    ensures along { HasPassedAlong layout.now axis (listed layout.now right.now)
        (listed layout.now left.now) cells.old cells.new }
    ensures ghosts { GhostsStay layout.now cells.old cells.new }
{
    let low = faces_beside(layout, axis, false);
    let high = faces_beside(layout, axis, true);
    update_box(
        &FacePass,
        cell_extents(layout),
        cells,
        interior_box(layout),
        right,
        low,
        high,
        left,
        low,
        high,
    );
}

/// Makes of the totals of a block those after a stage: each interior cell gains what passes to the right through its
/// low faces and to the left through its high faces, and loses what passes to the left through its low faces and to
/// the right through its high faces. Ghosts stay as they are.
///
/// `right` and `left` have the faces of x1, then of x2, then of x3, x1 fastest, as [`fluxes`](crate::fluxes) writes
/// them. No cell may lose more than it has, and none may come to 2^63.
pub fn update(layout: &Layout, cells: &mut [u64], right: &[u64], left: &[u64])
    requires cell_list { length cells.old ≡ len layout.now }
    requires right_list { length right.now ≡ face_count layout.now }
    requires left_list { length left.now ≡ face_count layout.now }
    requires passes { CanPass layout.now (listed layout.now right.now) (listed layout.now left.now) cells.old }
    ensures passed { HasPassed layout.now (listed layout.now right.now)
        (listed layout.now left.now) cells.old cells.new }
    ensures ghosts { GhostsStay layout.now cells.old cells.new }
{
    for axis in 0..layout.dims {
        update_along(layout, axis, cells, right, left);
    }
}
