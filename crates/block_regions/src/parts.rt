//! Parts of a side.

ghost use Rattle.std.specs.Prelude.{◌≡◌, ◌%◌, ◌+◌, ◌*◌, ◌/◌, ◌==◌, ◌≤◌, ◌<◌, cond, slice_index};
ghost use Rattle.morton_order.specs.Space.{factor};
ghost use Rattle.block_layout.specs.Regions.{beside_part as part_of, half_along as half_at};
ghost use Rattle.block_regions.specs.Boxes.{IsInside, IsRegion, IsSmall, IsWide, region_of};

use crate::regions::BlockRegion;
use block_layout::Layout;

/// In which half along another axis a part of a side lies.
fn half_along(dims: u32, axis: u32, half: u32, other: u32) -> usize
    requires axis { axis < 3 }
    requires other { other < 3 }
    requires half { half < 4 }
    ensures value { result ≡ half_at dims axis half other }
    ensures bit { result ≤ 1 }
{
    if other >= dims {
        return 0;
    }
    let place = if axis < other { other - 1 } else { other };
    ((half >> place) & 1) as usize
}

/// How many of the cells of a box along an axis lie beside a part of a side, and how many come before them.
fn span_along(dims: u32, axis: u32, half: u32, other: u32, extent: usize) -> (usize, usize)
    requires axis { axis < 3 }
    requires other { other < 3 }
    requires half { half < 4 }
    ensures before { result.0 ≡ cond (other == axis) 0 (half_at dims axis half other * (extent / 2)) }
    ensures extent { result.1 ≡ cond (other == axis) extent (extent / factor dims other) }
    ensures within { result.0 + result.1 ≤ extent }
    ensures some { cond (other == axis) 1 (factor dims other) ≤ extent → 1 ≤ result.1 }
{
    if other == axis {
        return (0, extent);
    }
    if other >= dims {
        return (0, extent);
    }
    if half_along(dims, axis, half, other) == 1 {
        (extent >> 1, extent >> 1)
    } else {
        (0, extent >> 1)
    }
}

/// The cells of a region beside a part of a side: all along the side's axis, and half of them along another in use.
/// The bits of the part's number are the halves along the other axes, the lower axis first.
pub fn beside_part(layout: &Layout, axis: u32, half: u32, region: &BlockRegion) -> BlockRegion
    requires axis { axis < layout.now.dims }
    requires half { half < 4 }
    requires wide { IsWide layout.now.dims axis region.now.extents }
    requires small { IsSmall region.now }
    ensures part { IsRegion (part_of layout.now axis half (region_of region.now)) result }
    ensures inside { IsInside region.now result }
{
    let (low1, extent1) = span_along(layout.dims, axis, half, 0, region.extents[0]);
    let (low2, extent2) = span_along(layout.dims, axis, half, 1, region.extents[1]);
    let (low3, extent3) = span_along(layout.dims, axis, half, 2, region.extents[2]);
    BlockRegion {
        low: [
            region.low[0] + low1,
            region.low[1] + low2,
            region.low[2] + low3,
        ],
        extents: [extent1, extent2, extent3],
    }
}
