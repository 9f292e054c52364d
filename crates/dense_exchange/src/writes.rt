//! What is written into the list of a block.

ghost use Rattle.std.specs.Prelude.{◌≡◌, ◌<◌, not, length};
ghost use Rattle.block_layout.specs.Indices.{count_of};
ghost use Rattle.block_layout.specs.Layouts.{interior_len, len};
ghost use Rattle.block_layout.specs.Regions.{ghosts, interior};
ghost use Rattle.block_regions.specs.Written.{HasRegion, StaysOffRegion};
ghost use Rattle.ghost_buffers.specs.Ghosts.{ghost_cell, received};
ghost use Rattle.ghost_buffers.specs.declared.part.How.TheVariants.{Same};
ghost use Rattle.ghost_buffers.specs.Parts.{part_extents, part_of};
ghost use Rattle.restrict_prolong.specs.Refined.{at_index};

use block_layout::Layout;
use block_regions::{BlockRegion, ghosts, in_block, inner_layers, whole};
use bound_faces::fill_outside;
use cell_boxes::{CopyRow, write_box};
use cell_lists::Cells;
use ghost_buffers::{How, unfill};
use morton_order::Side;

/// Writes a block's own cells, x1 fastest, into its list. The ghosts stay as they are.
fn write_interior(layout: &Layout, own: &[u64], cells: &mut [u64])
    requires own { length own.now ≡ interior_len layout.now }
    requires cells { length cells.old ≡ len layout.now }
    ensures own { HasRegion layout.now (interior layout.now) (at_index layout.now.cells own.now) cells.new }
    ensures others { StaysOffRegion layout.now (interior layout.now) cells.old cells.new }
{
    let extents = [
        layout.cells[0] as usize,
        layout.cells[1] as usize,
        layout.cells[2] as usize,
    ];
    let low = [
        layout.ghost_layers(0),
        layout.ghost_layers(1),
        layout.ghost_layers(2),
    ];
    let into_box = in_block(layout, &BlockRegion { low, extents });
    write_box(&CopyRow, extents, own, whole(extents), cells, into_box);
}

/// The same for a list of cells.
pub(crate) fn copy_own(layout: &Layout, own: &[u64], cells: &mut Cells)
    requires own { length own.now ≡ interior_len layout.now }
    requires cells { length cells.old ≡ len layout.now }
    ensures own { HasRegion layout.now (interior layout.now) (at_index layout.now.cells own.now) cells.new }
    ensures others { StaysOffRegion layout.now (interior layout.now) cells.old cells.new }
    ensures long { length cells.new ≡ length cells.old }
{
    write_interior(layout, own, cells.as_mut_slice());
}

/// Writes the ghosts beyond a side of a block from the layers of a block of the same level that stands behind it.
fn write_layers(layout: &Layout, side: Side, sender: &[u64], cells: &mut [u64])
    requires axis { side.axis < layout.now.dims }
    requires sender { length sender.now ≡ len layout.now }
    requires cells { length cells.old ≡ len layout.now }
    ensures ghosts { HasRegion layout.now (received Same layout.now side.axis side.high 0)
        (ghost_cell Same layout.now side.axis (part_of Same layout.now side.axis (not side.high) 0 sender.now))
        cells.new }
    ensures others { StaysOffRegion layout.now (received Same layout.now side.axis side.high 0) cells.old cells.new }
{
    let opposite = Side {
        axis: side.axis,
        high: !side.high,
    };
    let sent = inner_layers(layout, opposite, 2);
    let given = ghosts(layout, side);
    let from_box = in_block(layout, &sent);
    let into_box = in_block(layout, &given);
    write_box(&CopyRow, given.extents, sender, from_box, cells, into_box);
}

/// The same for a list of cells.
pub(crate) fn copy_layers(layout: &Layout, side: Side, sender: &[u64], cells: &mut Cells)
    requires axis { side.axis < layout.now.dims }
    requires sender { length sender.now ≡ len layout.now }
    requires cells { length cells.old ≡ len layout.now }
    ensures ghosts { HasRegion layout.now (received Same layout.now side.axis side.high 0)
        (ghost_cell Same layout.now side.axis (part_of Same layout.now side.axis (not side.high) 0 sender.now))
        cells.new }
    ensures others { StaysOffRegion layout.now (received Same layout.now side.axis side.high 0) cells.old cells.new }
    ensures long { length cells.new ≡ length cells.old }
{
    write_layers(layout, side, sender, cells.as_mut_slice());
}

/// Writes the ghosts beyond a side that a part gives.
pub(crate) fn give_part(
    layout: &Layout,
    how: How,
    side: Side,
    half: u32,
    part: &[u64],
    cells: &mut Cells,
)
    requires axis { side.axis < layout.now.dims }
    requires half { half < 4 }
    requires part { length part.now ≡ count_of (part_extents how layout.now side.axis) }
    requires cells { length cells.old ≡ len layout.now }
    ensures ghosts { HasRegion layout.now (received how layout.now side.axis side.high half)
        (ghost_cell how layout.now side.axis part.now) cells.new }
    ensures others { StaysOffRegion layout.now (received how layout.now side.axis side.high half) cells.old cells.new }
    ensures long { length cells.new ≡ length cells.old }
{
    unfill(layout, how, side, half, part, cells.as_mut_slice());
}

/// Writes one total into all ghosts beyond a side.
pub(crate) fn give_outside(layout: &Layout, side: Side, total: u64, cells: &mut Cells)
    requires axis { side.axis < layout.now.dims }
    requires cells { length cells.old ≡ len layout.now }
    ensures ghosts { HasRegion layout.now (ghosts layout.now side.axis side.high) (λ _. total) cells.new }
    ensures others { StaysOffRegion layout.now (ghosts layout.now side.axis side.high) cells.old cells.new }
    ensures long { length cells.new ≡ length cells.old }
{
    fill_outside(layout, side, total, cells.as_mut_slice());
}
