//! Ghosts of a block by the letters of the blocks behind one of its sides.

ghost use Rattle.std.specs.Prelude.{◌≡◌};

use crate::small::{are_small, listed};
use block_layout::Layout;
use ghost_buffers::{How, fill, unfill};
use mesh_num::NoMemory;
use morton_order::Side;
use std::alloc::Global;

/// Numbers at some places of a list; all others are 0.
pub type Places<'a> = &'a [(usize, u64)];

/// What a block behind a side is to the block there, which part of the side lies between them, and its cells that are
/// not empty.
pub type Sender<'a> = (How, u32, Places<'a>);

/// The side of a block behind a side that is next to it.
pub(crate) fn facing(side: Side) -> Side
    ensures { result.axis ≡ side.axis }
{
    Side {
        axis: side.axis,
        high: !side.high,
    }
}

/// Writes the ghosts that a sender's letter gives; answers whether the lists are those of blocks, and the sender's
/// totals are small.
pub(crate) fn receive(
    alloc: Global,
    layout: &Layout,
    side: Side,
    how: How,
    half: u32,
    sender: &[u64],
    cells: &mut [u64],
) -> Result<bool, NoMemory> {
    if side.axis >= layout.dims || half > 3 {
        return Ok(false);
    }
    if sender.len() != layout.len() || cells.len() != layout.len() || !are_small(sender) {
        return Ok(false);
    }
    let part = fill(alloc, layout, how, facing(side), half, sender)?;
    unfill(layout, how, side, half, part.as_slice(), cells);
    Ok(true)
}

/// Writes those that the letters of all blocks behind a side give, one after the other.
fn receive_all(
    alloc: Global,
    layout: &Layout,
    side: Side,
    senders: &[Sender],
    cells: &mut [u64],
) -> Result<bool, NoMemory> {
    for (how, half, places) in senders {
        let sender = listed(alloc, layout.len(), places)?;
        if !receive(alloc, layout, side, *how, *half, sender.as_slice(), cells)? {
            return Ok(false);
        }
    }
    Ok(true)
}

/// Whether the letters of the blocks behind a side make of cells at some places, all others empty, those at other
/// places.
pub fn unfilled(
    alloc: Global,
    layout: &Layout,
    side: Side,
    senders: &[Sender],
    before: Places,
    after: Places,
) -> Result<bool, NoMemory> {
    let mut cells = listed(alloc, layout.len(), before)?;
    let fit = receive_all(alloc, layout, side, senders, cells.as_mut_slice())?;
    let expected = listed(alloc, layout.len(), after)?;
    Ok(fit && cells.as_slice() == expected.as_slice())
}
