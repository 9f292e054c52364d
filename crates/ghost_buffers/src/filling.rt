//! Parts that are made of cells.

ghost use Rattle.std.specs.Prelude.{◌≡◌, ◌<◌, ◌^◌, ◌-◌, IfOk, length};
ghost use Rattle.block_layout.specs.Indices.{count_of};
ghost use Rattle.block_layout.specs.Layouts.{len};
ghost use Rattle.cell_boxes.specs.Boxes.{HasCells};
ghost use Rattle.block_regions.specs.Boxes.{IsRegion, LiesInBlock};
ghost use Rattle.ghost_buffers.specs.Parts.{PartBelow, part_extents as extents_of, part_of, sent as sent_of};
ghost use Rattle.ghost_buffers.specs.Regions.{IsMadeBy, MadeBelow, sent_extents};

use crate::extents::part_extents;
use crate::part::How;
use block_layout::Layout;
use block_regions::{BlockRegion, beside_part, cell_count, in_block, inner_layers, whole};
use cell_boxes::{CopyRow, write_box};
use cell_lists::{Cells, NoMemory};
use morton_order::Side;
use restrict_prolong::{factors, restrict_box};
use std::alloc::Global;

/// The cells of the sender that a part is made of.
fn sent(layout: &Layout, how: How, side: Side, half: u32) -> BlockRegion
    requires axis { side.axis < layout.now.dims }
    requires half { half < 4 }
    ensures region { IsRegion (sent_of how layout.now side.axis side.high half) result }
    ensures lies { LiesInBlock layout.now result }
    ensures extents { result.extents ≡ sent_extents how layout.now.dims (extents_of how layout.now side.axis) }
{
    match how {
        How::Same => inner_layers(layout, side, 2),
        How::Finer => inner_layers(layout, side, 4),
        How::Coarser => beside_part(layout, side.axis, half, &inner_layers(layout, side, 1)),
    }
}

/// Writes the cells of a part of these extents from those of a region.
fn write_cells(
    layout: &Layout,
    how: How,
    extents: [usize; 3],
    region: &BlockRegion,
    cells: &[u64],
    part: &mut [u64],
)
    requires cells { HasCells extents }
    requires lies { LiesInBlock layout.now region.now }
    requires extents { region.now.extents ≡ sent_extents how layout.now.dims extents }
    requires list { length cells.now ≡ len layout.now }
    requires part { length part.old ≡ count_of extents }
    requires small { MadeBelow (2 ^ 64) how layout.now extents region.now cells.now }
    ensures { IsMadeBy how layout.now extents region.now cells.now part.new }
{
    let from_box = in_block(layout, region);
    let into_box = whole(extents);
    match how {
        How::Same => write_box(&CopyRow, extents, cells, from_box, part, into_box),
        How::Coarser => write_box(&CopyRow, extents, cells, from_box, part, into_box),
        How::Finer => restrict_box(
            factors(layout.dims),
            extents,
            cells,
            from_box,
            part,
            into_box,
        ),
    }
}

/// Writes a part's cells.
fn write_part(layout: &Layout, how: How, side: Side, half: u32, cells: &[u64], part: &mut [u64])
    requires axis { side.axis < layout.now.dims }
    requires half { half < 4 }
    requires cells { length cells.now ≡ len layout.now }
    requires part { length part.old ≡ count_of (extents_of how layout.now side.axis) }
    requires small { PartBelow (2 ^ 62) how layout.now side.axis side.high half cells.now }
    ensures { part.new ≡ part_of how layout.now side.axis side.high half cells.now }
{
    let extents = part_extents(layout, how, side.axis);
    let region = sent(layout, how, side, half);
    write_cells(layout, how, extents, &region, cells, part);
}

/// Makes a field's part of the ghost letter to a leaf behind a side of the sender, from its list of cells with ghosts.
///
/// `side` is the sender's own, and `half` the part of it that a finer receiver covers. The sums of a finer sender are
/// below 2^62.
pub fn fill(
    alloc: Global,
    layout: &Layout,
    how: How,
    side: Side,
    half: u32,
    cells: &[u64],
) -> Result<Cells, NoMemory>
    requires axis { side.axis < layout.now.dims }
    requires half { half < 4 }
    requires cells { length cells.now ≡ len layout.now }
    requires small { PartBelow (2 ^ 62) how layout.now side.axis side.high half cells.now }
    ensures { IfOk result (λ part. part ≡ part_of how layout.now side.axis side.high half cells.now) }
{
    let extents = part_extents(layout, how, side.axis);
    let mut part = vec![in alloc; 0u64; cell_count(&extents)]?;
    write_part(layout, how, side, half, cells, part.as_mut_slice());
    Ok(Cells::of(part))
}
