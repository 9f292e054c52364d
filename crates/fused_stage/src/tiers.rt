//! A pass along one axis by the fastest tiers of its two rates.

ghost use Rattle.std.specs.Prelude.{◌≡◌, ◌<◌, ◌≤◌, ◌^◌, All, length};
ghost use Rattle.block_layout.specs.Layouts.{cells_along, len};
ghost use Rattle.fused_stage.specs.Layers.{CanPassLayers, HasLayers, after_axis, axis_pass};

use crate::axis::pass_axis;
use crate::start::Start;
use block_layout::Layout;
use upwind_portions::{Fraction, Portions, Tier};

/// A pass along an axis whose portions to the right are given.
fn pass_right<S: Start, P: Portions>(
    layout: &Layout,
    axis: u32,
    start: S,
    right: P,
    left: &Fraction,
    greatest: u64,
    closed: &[bool; 6],
    cells: &[u64],
    into: &mut [u64],
)
    requires axis { axis < layout.now.dims }
    requires cell_list { length cells.now ≡ len layout.now }
    requires new_list { length into.old ≡ len layout.now }
    requires bound { All (λ t. t ≤ greatest) cells.now }
    requires small { greatest < 2 ^ 62 }
    requires rights { All (λ t. t ≤ P.greatest right) cells.now }
    requires passes { CanPassLayers (axis_pass layout.now axis closed.now cells.now (S.begins start) (P.rate right)
        (P.denominator right) left.now.rate left.now.denominator) 0 (cells_along layout.now axis) into.old }
    ensures { HasLayers (after_axis (axis_pass layout.now axis closed.now cells.now (S.begins start) (P.rate right)
        (P.denominator right) left.now.rate left.now.denominator)) layout.now axis 0
        (cells_along layout.now axis) into.old into.new }
{
    match left.tier(greatest) {
        Tier::Nothing(portions) => pass_axis(
            layout, axis, start, right, portions, closed, cells, into,
        ),
        Tier::Small(portions) => pass_axis(
            layout, axis, start, right, portions, closed, cells, into,
        ),
        Tier::Word(portions) => pass_axis(
            layout, axis, start, right, portions, closed, cells, into,
        ),
        Tier::Any(portions) => pass_axis(layout, axis, start, right, portions, closed, cells, into),
    }
}

/// A pass along an axis, where no total passes `greatest`.
pub(crate) fn pass_along<S: Start>(
    layout: &Layout,
    axis: u32,
    start: S,
    right: &Fraction,
    left: &Fraction,
    greatest: u64,
    closed: &[bool; 6],
    cells: &[u64],
    into: &mut [u64],
)
    requires axis { axis < layout.now.dims }
    requires cell_list { length cells.now ≡ len layout.now }
    requires new_list { length into.old ≡ len layout.now }
    requires bound { All (λ t. t ≤ greatest) cells.now }
    requires small { greatest < 2 ^ 62 }
    requires passes { CanPassLayers (axis_pass layout.now axis closed.now cells.now
        (S.begins start) right.now.rate right.now.denominator left.now.rate left.now.denominator) 0
        (cells_along layout.now axis) into.old }
    ensures { HasLayers (after_axis (axis_pass layout.now axis closed.now cells.now
        (S.begins start) right.now.rate right.now.denominator left.now.rate left.now.denominator)) layout.now axis 0
        (cells_along layout.now axis) into.old into.new }
{
    match right.tier(greatest) {
        Tier::Nothing(portions) => pass_right(
            layout, axis, start, portions, left, greatest, closed, cells, into,
        ),
        Tier::Small(portions) => pass_right(
            layout, axis, start, portions, left, greatest, closed, cells, into,
        ),
        Tier::Word(portions) => pass_right(
            layout, axis, start, portions, left, greatest, closed, cells, into,
        ),
        Tier::Any(portions) => pass_right(
            layout, axis, start, portions, left, greatest, closed, cells, into,
        ),
    }
}
