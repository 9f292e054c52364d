//! Layers next to a side of a block.

ghost use Rattle.std.specs.Prelude.{◌≡◌, ◌+◌, ◌≤◌, ◌<◌};
ghost use Rattle.block_layout.specs.Layouts.{cells_along};
ghost use Rattle.block_layout.specs.Regions.{ghosts as ghosts_at, inner_layers as layers_at, layers as layers_of};
ghost use Rattle.block_regions.specs.Boxes.{AreFew, IsRegion, IsSmall, IsWide, LiesInBlock, box_of};
ghost use Rattle.block_layout.specs.Indices.{count_of};

use block_layout::Layout;
use cell_boxes::BoxIn;
use morton_order::Side;

/// A box of cells of a block with its ghosts.
#[derive(Clone, Copy, Debug)]
pub struct BlockRegion {
    /// Its lowest index along x1, x2 and x3, counted from the first ghost.
    pub low: [usize; 3],
    /// Its cells along each axis.
    pub extents: [usize; 3],
}

/// So many layers of the interior's cells along the other axes, from an index along an axis on.
fn layers(layout: &Layout, axis: u32, from: usize, depth: usize) -> BlockRegion
    requires axis { axis < layout.now.dims }
    requires depth { 1 ≤ depth }
    requires within { from + depth ≤ cells_along layout.now axis + 4 }
    ensures region { IsRegion (layers_of layout.now axis from depth) result }
    ensures lies { LiesInBlock layout.now result }
    ensures small { IsSmall result }
    ensures wide { IsWide layout.now.dims axis result.extents }
{
    let mut low = [
        layout.ghost_layers(0),
        layout.ghost_layers(1),
        layout.ghost_layers(2),
    ];
    low[axis as usize] = from;
    let mut extents = [
        layout.cells[0] as usize,
        layout.cells[1] as usize,
        layout.cells[2] as usize,
    ];
    extents[axis as usize] = depth;
    BlockRegion { low, extents }
}

/// So many layers of the interior next to a side, at most four.
pub fn inner_layers(layout: &Layout, side: Side, depth: usize) -> BlockRegion
    requires axis { side.axis < layout.now.dims }
    requires least { 1 ≤ depth }
    requires most { depth ≤ 4 }
    ensures region { IsRegion (layers_at layout.now side.axis side.high depth) result }
    ensures lies { LiesInBlock layout.now result }
    ensures small { IsSmall result }
    ensures wide { IsWide layout.now.dims side.axis result.extents }
{
    let cells = layout.cells[side.axis as usize] as usize;
    let from = if side.high { cells + 2 - depth } else { 2 };
    layers(layout, side.axis, from, depth)
}

/// The two layers of ghosts next to a side, without the corners.
pub fn ghosts(layout: &Layout, side: Side) -> BlockRegion
    requires { side.axis < layout.now.dims }
    ensures region { IsRegion (ghosts_at layout.now side.axis side.high) result }
    ensures lies { LiesInBlock layout.now result }
    ensures small { IsSmall result }
    ensures wide { IsWide layout.now.dims side.axis result.extents }
{
    let cells = layout.cells[side.axis as usize] as usize;
    let from = if side.high { cells + 2 } else { 0 };
    layers(layout, side.axis, from, 2)
}

/// Where a region lies in the list of a block.
pub fn in_block(layout: &Layout, region: &BlockRegion) -> BoxIn
    ensures { result ≡ box_of layout.now region.now.low }
{
    BoxIn {
        first: 0,
        widths: [layout.width(0), layout.width(1), layout.width(2)],
        low: region.low,
    }
}

/// How many cells a region of these extents has.
pub fn cell_count(extents: &[usize; 3]) -> usize
    requires { AreFew extents.now }
    ensures value { result ≡ count_of extents.now }
    ensures most { result ≤ 314_432 }
{
    extents[0] * extents[1] * extents[2]
}
