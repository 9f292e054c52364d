//! Ghosts that are written by parts.

ghost use Rattle.std.specs.Prelude.{◌≡◌, ◌<◌, ◌^◌, ◌-◌, length};
ghost use Rattle.block_layout.specs.Indices.{count_of};
ghost use Rattle.block_layout.specs.Layouts.{len};
ghost use Rattle.cell_boxes.specs.Boxes.{HasCells, StaysOffBox};
ghost use Rattle.block_regions.specs.Boxes.{IsRegion, LiesInBlock, box_of};
ghost use Rattle.block_regions.specs.Written.{HasRegion, StaysOffRegion};
ghost use Rattle.ghost_buffers.specs.Parts.{part_extents as extents_of};
ghost use Rattle.ghost_buffers.specs.Ghosts.{ghost_cell, received as received_of};
ghost use Rattle.ghost_buffers.specs.Regions.{IsGivenBy, received_extents};

use crate::extents::part_extents;
use crate::part::How;
use block_layout::Layout;
use block_regions::{BlockRegion, beside_part, ghosts, in_block, whole};
use cell_boxes::{CopyRow, write_box};
use morton_order::Side;
use restrict_prolong::prolong_box;

/// The ghosts of the receiver that a part gives.
fn received(layout: &Layout, how: How, side: Side, half: u32) -> BlockRegion
    requires axis { side.axis < layout.now.dims }
    requires half { half < 4 }
    ensures region { IsRegion (received_of how layout.now side.axis side.high half) result }
    ensures lies { LiesInBlock layout.now result }
    ensures extents { result.extents ≡ received_extents how layout.now.dims (extents_of how layout.now side.axis) }
{
    match how {
        How::Same => ghosts(layout, side),
        How::Finer => beside_part(layout, side.axis, half, &ghosts(layout, side)),
        How::Coarser => ghosts(layout, side),
    }
}

/// Writes the ghosts of a region by a part of these extents.
fn write_ghosts(
    layout: &Layout,
    how: How,
    extents: [usize; 3],
    region: &BlockRegion,
    part: &[u64],
    cells: &mut [u64],
)
    requires cells { HasCells extents }
    requires lies { LiesInBlock layout.now region.now }
    requires extents { region.now.extents ≡ received_extents how layout.now.dims extents }
    requires part { length part.now ≡ count_of extents }
    requires list { length cells.old ≡ len layout.now }
    ensures given { IsGivenBy how layout.now extents region.now part.now cells.new }
    ensures others { StaysOffBox (received_extents how layout.now.dims extents)
        (box_of layout.now region.now.low) cells.old cells.new }
{
    let from_box = whole(extents);
    let into_box = in_block(layout, region);
    match how {
        How::Same => write_box(&CopyRow, extents, part, from_box, cells, into_box),
        How::Finer => write_box(&CopyRow, extents, part, from_box, cells, into_box),
        How::Coarser => prolong_box(layout.dims, extents, part, from_box, cells, into_box),
    }
}

/// Writes the ghosts next to a side of a block by a part of a letter that came across it. All other cells stay as they
/// are.
///
/// `side` is the receiver's own, and `half` the part of it that a finer sender covers.
pub fn unfill(layout: &Layout, how: How, side: Side, half: u32, part: &[u64], cells: &mut [u64])
    requires axis { side.axis < layout.now.dims }
    requires half { half < 4 }
    requires part { length part.now ≡ count_of (extents_of how layout.now side.axis) }
    requires cells { length cells.old ≡ len layout.now }
    ensures ghosts { HasRegion layout.now (received_of how layout.now side.axis side.high half)
        (ghost_cell how layout.now side.axis part.now) cells.new }
    ensures others { StaysOffRegion layout.now
        (received_of how layout.now side.axis side.high half) cells.old cells.new }
{
    let extents = part_extents(layout, how, side.axis);
    let region = received(layout, how, side, half);
    write_ghosts(layout, how, extents, &region, part, cells);
}
