//! How many cells a part has.

ghost use Rattle.std.specs.Prelude.{◌≡◌, ◌<◌};
ghost use Rattle.cell_boxes.specs.Boxes.{HasCells};
ghost use Rattle.block_regions.specs.Boxes.{AreFew, LiesInBlock};
ghost use Rattle.ghost_buffers.specs.Parts.{part_extents as extents_of};

use crate::part::How;
use block_layout::Layout;
use block_regions::{BlockRegion, beside_part, ghosts, inner_layers};
use morton_order::Side;

/// A region of the extents of a part.
fn extents_region(layout: &Layout, how: How, axis: u32) -> BlockRegion
    requires { axis < layout.now.dims }
    ensures extents { result.extents ≡ extents_of how layout.now axis }
    ensures lies { LiesInBlock layout.now result }
{
    let side = Side { axis, high: false };
    match how {
        How::Same => ghosts(layout, side),
        How::Finer => beside_part(layout, axis, 0, &ghosts(layout, side)),
        How::Coarser => beside_part(layout, axis, 0, &inner_layers(layout, side, 1)),
    }
}

/// The cells of a part along each axis.
pub(crate) fn part_extents(layout: &Layout, how: How, axis: u32) -> [usize; 3]
    requires { axis < layout.now.dims }
    ensures extents { result ≡ extents_of how layout.now axis }
    ensures cells { HasCells result }
    ensures few { AreFew result }
{
    extents_region(layout, how, axis).extents
}
