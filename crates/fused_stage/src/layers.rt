//! Layers of the cells of a block along an axis.

ghost use Rattle.std.specs.Prelude.{◌≡◌, ◌+◌, ◌<◌, ◌≤◌, ◌^◌, length, slice_index};
ghost use Rattle.block_layout.specs.Layouts.{cells_along, len};
ghost use Rattle.fused_stage.specs.Layers.{HasLayers, TakesLayers, beside_numbers, layer_box, layer_extents};

use block_layout::Layout;
use box_updates::{BoxIn, update_box};
use row_updates::RowRule;

/// Some layers of cells along each axis.
fn layer_extents(layout: &Layout, axis: u32, depth: usize) -> [usize; 3]
    requires { axis < layout.now.dims }
    ensures { result ≡ layer_extents layout.now axis depth }
{
    let mut extents = [
        layout.cells[0] as usize,
        layout.cells[1] as usize,
        layout.cells[2] as usize,
    ];
    extents[axis as usize] = depth;
    extents
}

/// Where layers lie that begin at a cell of an axis, which counts from the first ghost.
fn layers_from(layout: &Layout, axis: u32, at: usize) -> BoxIn
    requires { axis < layout.now.dims }
    ensures { result ≡ layer_box layout.now axis at }
{
    let mut low = [
        layout.ghost_layers(0),
        layout.ghost_layers(1),
        layout.ghost_layers(2),
    ];
    low[axis as usize] = at;
    BoxIn {
        first: 0,
        widths: [layout.width(0), layout.width(1), layout.width(2)],
        low,
    }
}

/// Updates some layers of the interior by a rule of each cell and its two neighbours along the axis.
pub(crate) fn pass_layers<R: RowRule>(
    op: &R,
    layout: &Layout,
    axis: u32,
    from: usize,
    depth: usize,
    cells: &[u64],
    into: &mut [u64],
)
    requires axis { axis < layout.now.dims }
    requires cell_list { length cells.now ≡ len layout.now }
    requires new_list { length into.old ≡ len layout.now }
    requires some { 1 ≤ depth }
    requires within { from + depth ≤ cells_along layout.now axis }
    requires taken { TakesLayers (R.takes op.now) layout.now axis from (from + depth) cells.now into.old }
    ensures { HasLayers (λ own i. R.gives op.now (beside_numbers layout.now axis cells.now own i)) layout.now axis
        from (from + depth) into.old into.new }
{
    let below = layers_from(layout, axis, from + 1);
    let here = layers_from(layout, axis, from + 2);
    let above = layers_from(layout, axis, from + 3);
    update_box(
        op,
        layer_extents(layout, axis, depth),
        into,
        here,
        cells,
        below,
        here,
        cells,
        here,
        above,
    );
}
