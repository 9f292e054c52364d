//! Shares of root cells, in cells of any level.

ghost use Rattle.std.specs.Prelude.{◌≡◌, ◌≤◌, ◌<◌, ◌/◌, ◌%◌, ◌^◌, slice_index};
ghost use Rattle.morton_order.specs.Space.{child_number, factor, parts as parts_of};
ghost use Rattle.dense_remesh.specs.StartBoxes.{amounts, cell_of, cell_of_block, coarser as coarser_of, first_of_block, last_of_block, root_of as root_cell_of, root_total as root_total_of, spread_over};

use crate::origins::child_count;
use crate::start_boxes::root_total;
use block_layout::Layout;
use mesh_num::share;
use morton_order::Loc;
use problem_set::StartBox;

/// The coordinates of the cell at a place of a block.
pub(crate) fn cell_at(layout: &Layout, block: &Loc, place: usize) -> [u64; 3]
    requires { place < 2 ^ 32 }
    ensures { result ≡ cell_of_block layout.now.cells block.now place }
{
    let [along1, along2, along3] = layout.cells;
    let row = place / along1 as usize;
    [
        u64::from(block.l1) * u64::from(along1) + (place % along1 as usize) as u64,
        u64::from(block.l2) * u64::from(along2) + (row % along2 as usize) as u64,
        u64::from(block.l3) * u64::from(along3) + (row / along2 as usize) as u64,
    ]
}

/// The coordinates of the first cell of a block.
pub(crate) fn first_cell(layout: &Layout, block: &Loc) -> [u64; 3]
    ensures { result ≡ first_of_block layout.now.cells block.now }
{
    [
        u64::from(block.l1) * u64::from(layout.cells[0]),
        u64::from(block.l2) * u64::from(layout.cells[1]),
        u64::from(block.l3) * u64::from(layout.cells[2]),
    ]
}

/// The coordinates of the last cell of a block.
pub(crate) fn last_cell(layout: &Layout, block: &Loc) -> [u64; 3]
    ensures { result ≡ last_of_block layout.now.cells block.now }
{
    let [along1, along2, along3] = layout.cells;
    [
        u64::from(block.l1) * u64::from(along1) + u64::from(along1 - 1),
        u64::from(block.l2) * u64::from(along2) + u64::from(along2 - 1),
        u64::from(block.l3) * u64::from(along3) + u64::from(along3 - 1),
    ]
}

/// Along an axis that may be in use, the coordinate of a cell's parent, and which half of it the cell is.
fn halved(dims: u32, axis: u32, at: u64) -> (u64, u32)
    ensures coarse { result.0 ≡ at / factor dims axis }
    ensures half { result.1 ≡ at % factor dims axis }
    ensures bit { result.1 ≤ 1 }
{
    if axis < dims {
        (at / 2, (at % 2) as u32)
    } else {
        (at, 0)
    }
}

/// The coordinates of a cell's parent.
fn coarser(dims: u32, cell: &[u64; 3]) -> [u64; 3]
    ensures { result ≡ coarser_of dims cell.now }
{
    [
        halved(dims, 0, cell[0]).0,
        halved(dims, 1, cell[1]).0,
        halved(dims, 2, cell[2]).0,
    ]
}

/// Which child of its parent a cell is.
pub fn number_in_parent(dims: u32, cell: &[u64; 3]) -> u32
    requires least { 1 ≤ dims }
    requires most { dims ≤ 3 }
    ensures value { result ≡ child_number dims (cell_of 0 cell.now) }
    ensures below { result < parts_of dims }
{
    halved(dims, 0, cell[0]).1 + 2 * halved(dims, 1, cell[1]).1 + 4 * halved(dims, 2, cell[2]).1
}

/// The root cell that a cell of a level lies in.
pub(crate) fn root_of(dims: u32, level: u32, cell: &[u64; 3]) -> [u64; 3]
    ensures { result ≡ root_cell_of dims level cell.now }
{
    if level == 0 {
        return *cell;
    }
    root_of(dims, level - 1, &coarser(dims, cell))
}

/// The share that a cell of a level has of what boxes put into its root cell.
pub(crate) fn share_of_root(boxes: &[StartBox], dims: u32, level: u32, cell: &[u64; 3]) -> u64
    requires least { 1 ≤ dims }
    requires most { dims ≤ 3 }
    requires small { amounts boxes.now < 2 ^ 62 }
    ensures { result ≡ spread_over level dims (root_total_of boxes.now) (cell_of level cell.now) }
{
    if level == 0 {
        return root_total(boxes, cell);
    }
    let whole = share_of_root(boxes, dims, level - 1, &coarser(dims, cell));
    share(whole, child_count(dims), number_in_parent(dims, cell))
}
