//! Ghosts that letters fill.

ghost use Rattle.std.specs.Prelude.{◌≡◌, ◌<◌, length};

use crate::block::Block;
use block_layout::Layout;
use ghost_buffers::{How, fill, unfill};
use mesh_num::NoMemory;
use morton_order::Side;
use std::alloc::Global;

/// The number of the block behind a side of one. Blocks stand in a periodic row along x1; along the other axes a block is
/// its own neighbour.
fn behind(number: usize, count: usize, side: Side) -> usize
    requires { number < count }
    ensures { result < count }
{
    if side.axis > 0 {
        number
    } else if side.high {
        (number + 1) % count
    } else if number > 0 {
        number - 1
    } else {
        count - 1
    }
}

/// Fills the ghosts at a side of a block with the letter of the one behind it; nothing where their lists do not fit.
fn fill_side(
    alloc: Global,
    layout: &Layout,
    side: Side,
    number: usize,
    blocks: &mut [Block],
) -> Result<(), NoMemory>
    requires axis { side.axis < layout.now.dims }
    requires number { number < length blocks.old }
    ensures count { length blocks.new ≡ length blocks.old }
{
    let size = layout.len();
    let sent = Side {
        axis: side.axis,
        high: !side.high,
    };
    let from = behind(number, blocks.len(), side);
    if blocks[from].next.len() != size || blocks[number].next.len() != size {
        return Ok(());
    }
    let cells = blocks[from].next.as_slice();
    let part = fill(alloc, layout, How::Same, sent, 0, cells)?;
    let cells = blocks[number].next.as_mut_slice();
    unfill(layout, How::Same, side, 0, part.as_slice(), cells);
    Ok(())
}

/// Fills the ghosts of a block.
fn fill_block(
    alloc: Global,
    layout: &Layout,
    number: usize,
    blocks: &mut [Block],
) -> Result<(), NoMemory>
    requires number { number < length blocks.old }
    ensures count { length blocks.new ≡ length blocks.old }
{
    for axis in 0..layout.dims {
        fill_side(alloc, layout, Side { axis, high: false }, number, blocks)?;
        fill_side(alloc, layout, Side { axis, high: true }, number, blocks)?;
    }
    Ok(())
}

/// Fills the ghosts of all blocks.
pub(crate) fn exchange(
    alloc: Global,
    layout: &Layout,
    blocks: &mut [Block],
) -> Result<(), NoMemory> {
    for number in 0..blocks.len() {
        fill_block(alloc, layout, number, blocks)?;
    }
    Ok(())
}
