//! What flows through the faces of the domain.

ghost use Rattle.std.specs.Prelude.{◌≡◌, ◌<◌, ◌≤◌, ◌+◌, ◌*◌, ◌^◌, true, false, Some, length, slice_get};
ghost use Rattle.morton_order.specs.declared.space.Loc.{Loc};
ghost use Rattle.morton_order.specs.Neighbours.{across};
ghost use Rattle.block_tree.specs.Blocks.{leaves};
ghost use Rattle.mesh_rules.specs.Sums.{sum_to};
ghost use Rattle.mesh_rules.specs.Stage.{when_outside};
ghost use Rattle.block_layout.specs.Faces.{face_count};
ghost use Rattle.flow_laws.specs.Flows.{passed_side};
ghost use Rattle.leaf_stages.specs.Flows.{inflow_along};

use block_layout::Layout;
use block_tree::{Behind, Tree};
use cell_lists::Cells;
use morton_order::Side;
use transport_kernel::passed;

/// What flows in and out of a leaf through the faces of the domain.
#[derive(Clone, Copy)]
pub struct LeafFlows {
    pub inflow: u128,
    pub outflow: u128,
}

/// What a list has at a side of a block.
fn passed_through(layout: &Layout, side: Side, list: &[u64]) -> u128
    requires axis { side.axis < layout.now.dims }
    requires list { length list.now ≡ face_count layout.now }
    ensures value { result ≡ passed_side layout.now list.now side.axis side.high }
    ensures most { result ≤ 2 ^ 84 }
{
    passed(layout, side, list)
}

/// What a list has at a side of a leaf, if it is a face of the domain, else nothing.
fn passed_outside(tree: &Tree, layout: &Layout, leaf: u32, side: Side, list: &Cells) -> u128
    requires leaf { leaf < length (leaves tree.now) }
    requires dims { layout.now.dims ≡ tree.now.shape.dims }
    requires axis { side.axis < layout.now.dims }
    requires list { length list.now ≡ face_count layout.now }
    ensures value { (l : Loc) → slice_get (leaves tree.now) leaf ≡ Some l
        → result ≡ when_outside (across tree.now.shape l side.axis side.high)
        (passed_side layout.now list.now side.axis side.high) }
    ensures most { result ≤ 2 ^ 84 }
{
    match tree.behind(leaf, side) {
        Behind::Outside => passed_through(layout, side, list.as_slice()),
        _ => 0,
    }
}

/// What flows in and out of a leaf along an axis.
fn axis_flows(
    tree: &Tree,
    layout: &Layout,
    leaf: u32,
    axis: u32,
    right: &Cells,
    left: &Cells,
) -> LeafFlows
    requires leaf { leaf < length (leaves tree.now) }
    requires dims { layout.now.dims ≡ tree.now.shape.dims }
    requires axis { axis < layout.now.dims }
    requires right { length right.now ≡ face_count layout.now }
    requires left { length left.now ≡ face_count layout.now }
    ensures inflow { (l : Loc) → slice_get (leaves tree.now) leaf ≡ Some l
        → result.inflow ≡ inflow_along tree.now.shape l layout.now right.now left.now axis }
    ensures outflow { (l : Loc) → slice_get (leaves tree.now) leaf ≡ Some l
        → result.outflow ≡ inflow_along tree.now.shape l layout.now left.now right.now axis }
    ensures most_in { result.inflow ≤ 2 ^ 85 }
    ensures most_out { result.outflow ≤ 2 ^ 85 }
{
    let low = Side { axis, high: false };
    let high = Side { axis, high: true };
    LeafFlows {
        inflow: passed_outside(tree, layout, leaf, low, right)
            + passed_outside(tree, layout, leaf, high, left),
        outflow: passed_outside(tree, layout, leaf, low, left)
            + passed_outside(tree, layout, leaf, high, right),
    }
}

/// What flows in and out of a leaf through the faces of the domain, by the lists of what passes its faces.
pub fn leaf_flows(tree: &Tree, layout: &Layout, leaf: u32, right: &Cells, left: &Cells) -> LeafFlows
    requires leaf { leaf < length (leaves tree.now) }
    requires dims { layout.now.dims ≡ tree.now.shape.dims }
    requires right { length right.now ≡ face_count layout.now }
    requires left { length left.now ≡ face_count layout.now }
    ensures inflow { (l : Loc) → slice_get (leaves tree.now) leaf ≡ Some l
        → result.inflow ≡ sum_to layout.now.dims (inflow_along tree.now.shape l layout.now right.now left.now) }
    ensures outflow { (l : Loc) → slice_get (leaves tree.now) leaf ≡ Some l
        → result.outflow ≡ sum_to layout.now.dims (inflow_along tree.now.shape l layout.now left.now right.now) }
    ensures most_in { result.inflow ≤ 2 ^ 87 }
    ensures most_out { result.outflow ≤ 2 ^ 87 }
{
    let mut inflow = 0u128;
    let mut outflow = 0u128;
    for axis in 0..layout.dims {
        let flows = axis_flows(tree, layout, leaf, axis, right, left);
        inflow += flows.inflow;
        outflow += flows.outflow;
    }
    LeafFlows { inflow, outflow }
}
