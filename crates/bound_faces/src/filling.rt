//! The ghosts beyond a face of the domain.

ghost use Rattle.std.specs.Prelude.{◌≡◌, ◌<◌, length};
ghost use Rattle.block_layout.specs.Layouts.{len};
ghost use Rattle.block_layout.specs.Regions.{ghosts as ghosts_at};
ghost use Rattle.block_regions.specs.Written.{HasRegion, StaysOffRegion};

use block_layout::Layout;
use block_regions::{EvenRows, ghosts, in_block, write_box_rows};
use morton_order::Side;

/// Fills the two layers of ghosts next to a side with one total, beside the interior's cells. The ghosts at the
/// corners and all other cells stay as they are.
pub fn fill_outside(layout: &Layout, side: Side, total: u64, cells: &mut [u64])
    requires axis { side.axis < layout.now.dims }
    requires cells { length cells.old ≡ len layout.now }
    ensures ghosts { HasRegion layout.now (ghosts_at layout.now side.axis side.high) (λ _. total) cells.new }
    ensures others { StaysOffRegion layout.now (ghosts_at layout.now side.axis side.high) cells.old cells.new }
{
    let region = ghosts(layout, side);
    let rows = EvenRows { number: total };
    write_box_rows(&rows, region.extents, &[], cells, in_block(layout, &region));
}
