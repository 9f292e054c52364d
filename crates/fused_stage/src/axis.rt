//! A pass along one axis, with closed sides.

ghost use Rattle.std.specs.Prelude.{◌≡◌, ◌<◌, ◌≤◌, All, false, true, cond, length};
ghost use Rattle.block_layout.specs.Layouts.{cells_along, len};
ghost use Rattle.fused_stage.specs.Layers.{CanPassLayers, HasLayers, after_axis, axis_pass, end_open, first_open};

use crate::layers::pass_layers;
use crate::neighbour_pass::NeighbourPass;
use crate::start::Start;
use block_layout::Layout;
use upwind_portions::{Portions, Still};

/// How many layers of cells stand at a closed side: one, and none at an open one.
fn closed_layers(closed: bool) -> usize
    ensures { result ≡ cond closed 1 0 }
{
    if closed { 1 } else { 0 }
}

/// The cells that have no closed face along the axis.
fn pass_open<S: Start, P: Portions, Q: Portions>(
    layout: &Layout,
    axis: u32,
    start: S,
    right: P,
    left: Q,
    closed: &[bool; 6],
    cells: &[u64],
    into: &mut [u64],
)
    requires axis { axis < layout.now.dims }
    requires cell_list { length cells.now ≡ len layout.now }
    requires new_list { length into.old ≡ len layout.now }
    requires rights { All (λ t. t ≤ P.greatest right) cells.now }
    requires lefts { All (λ t. t ≤ Q.greatest left) cells.now }
    requires passes { CanPassLayers (axis_pass layout.now axis closed.now cells.now (S.begins start) (P.rate right)
        (P.denominator right) (Q.rate left) (Q.denominator left)) (first_open closed.now axis)
        (end_open layout.now closed.now axis) into.old }
    ensures { HasLayers (after_axis (axis_pass layout.now axis closed.now cells.now (S.begins start) (P.rate right)
        (P.denominator right) (Q.rate left) (Q.denominator left))) layout.now axis (first_open closed.now axis)
        (end_open layout.now closed.now axis) into.old into.new }
{
    let from = closed_layers(closed[2 * axis as usize]);
    let above = closed_layers(closed[2 * axis as usize + 1]);
    let depth = layout.cells[axis as usize] as usize - above - from;
    let rule = NeighbourPass {
        start,
        from_below: right,
        from_above: left,
        to_below: left,
        to_above: right,
    };
    pass_layers(&rule, layout, axis, from, depth, cells, into);
}

/// The lowest layer, if its low faces are closed: nothing comes from below, and nothing goes there.
fn pass_low<S: Start, P: Portions, Q: Portions>(
    layout: &Layout,
    axis: u32,
    start: S,
    right: P,
    left: Q,
    closed: &[bool; 6],
    cells: &[u64],
    into: &mut [u64],
)
    requires axis { axis < layout.now.dims }
    requires cell_list { length cells.now ≡ len layout.now }
    requires new_list { length into.old ≡ len layout.now }
    requires rights { All (λ t. t ≤ P.greatest right) cells.now }
    requires lefts { All (λ t. t ≤ Q.greatest left) cells.now }
    requires passes { CanPassLayers (axis_pass layout.now axis closed.now cells.now (S.begins start) (P.rate right)
        (P.denominator right) (Q.rate left) (Q.denominator left)) 0 (first_open closed.now axis) into.old }
    ensures { HasLayers (after_axis (axis_pass layout.now axis closed.now cells.now (S.begins start) (P.rate right)
        (P.denominator right) (Q.rate left) (Q.denominator left))) layout.now axis 0
        (first_open closed.now axis) into.old into.new }
{
    if closed[2 * axis as usize] {
        let shut = Still { denominator: 1 };
        let rule = NeighbourPass {
            start,
            from_below: shut,
            from_above: left,
            to_below: shut,
            to_above: right,
        };
        pass_layers(&rule, layout, axis, 0, 1, cells, into);
    }
}

/// The highest layer, if its high faces are closed.
fn pass_high<S: Start, P: Portions, Q: Portions>(
    layout: &Layout,
    axis: u32,
    start: S,
    right: P,
    left: Q,
    closed: &[bool; 6],
    cells: &[u64],
    into: &mut [u64],
)
    requires axis { axis < layout.now.dims }
    requires cell_list { length cells.now ≡ len layout.now }
    requires new_list { length into.old ≡ len layout.now }
    requires rights { All (λ t. t ≤ P.greatest right) cells.now }
    requires lefts { All (λ t. t ≤ Q.greatest left) cells.now }
    requires passes { CanPassLayers (axis_pass layout.now axis closed.now cells.now (S.begins start) (P.rate right)
        (P.denominator right) (Q.rate left) (Q.denominator left)) (end_open layout.now closed.now axis)
        (cells_along layout.now axis) into.old }
    ensures { HasLayers (after_axis (axis_pass layout.now axis closed.now cells.now (S.begins start) (P.rate right)
        (P.denominator right) (Q.rate left) (Q.denominator left))) layout.now axis
        (end_open layout.now closed.now axis) (cells_along layout.now axis) into.old into.new }
{
    if closed[2 * axis as usize + 1] {
        let shut = Still { denominator: 1 };
        let rule = NeighbourPass {
            start,
            from_below: right,
            from_above: shut,
            to_below: left,
            to_above: shut,
        };
        let last = layout.cells[axis as usize] as usize - 1;
        pass_layers(&rule, layout, axis, last, 1, cells, into);
    }
}

/// All interior cells: each gains what comes in through its two faces of an axis, and loses what goes out.
pub(crate) fn pass_axis<S: Start, P: Portions, Q: Portions>(
    layout: &Layout,
    axis: u32,
    start: S,
    right: P,
    left: Q,
    closed: &[bool; 6],
    cells: &[u64],
    into: &mut [u64],
)
    requires axis { axis < layout.now.dims }
    requires cell_list { length cells.now ≡ len layout.now }
    requires new_list { length into.old ≡ len layout.now }
    requires rights { All (λ t. t ≤ P.greatest right) cells.now }
    requires lefts { All (λ t. t ≤ Q.greatest left) cells.now }
    requires passes { CanPassLayers (axis_pass layout.now axis closed.now cells.now (S.begins start) (P.rate right)
        (P.denominator right) (Q.rate left) (Q.denominator left)) 0 (cells_along layout.now axis) into.old }
    ensures { HasLayers (after_axis (axis_pass layout.now axis closed.now cells.now (S.begins start) (P.rate right)
        (P.denominator right) (Q.rate left) (Q.denominator left))) layout.now axis 0
        (cells_along layout.now axis) into.old into.new }
{
    pass_open(layout, axis, start, right, left, closed, cells, into);
    pass_low(layout, axis, start, right, left, closed, cells, into);
    pass_high(layout, axis, start, right, left, closed, cells, into);
}
