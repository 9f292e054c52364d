//! Walks on the lattices: up and down the levels, across a side.

ghost use Rattle.std.specs.Prelude.{◌≡◌, ◌<◌, ◌≤◌, ◌+◌, ◌*◌, ◌^◌, IfSome};
ghost use Rattle.morton_order.specs.declared.space.Shape.{Shape};
ghost use Rattle.morton_order.specs.Space.{IsIn, IsLoc, IsShape, parts};
ghost use Rattle.morton_order.specs.Space.{parent as parent_of, child as child_of, factor as factor_of};
ghost use Rattle.morton_order.specs.Space.{axis_of, blocks_along as blocks_along_of};
ghost use Rattle.morton_order.specs.Neighbours.{across as across_of, beside as beside_of};
ghost use Rattle.morton_order.specs.Neighbours.{moved as moved_of, step as step_of};

use crate::space::{Loc, Shape, Side};

/// The location that `at` is a part of, one level coarser.
pub fn parent(at: &Loc) -> Loc
    requires valid { IsLoc 3 at.now }
    requires refined { 1 ≤ at.now.level }
    ensures halved { result ≡ parent_of 3 at.now }
    ensures in_any_shape { (s : Shape) → IsShape s → IsIn s at.now → result ≡ parent_of s.dims at.now }
{
    Loc {
        level: at.level - 1,
        l1: at.l1 / 2,
        l2: at.l2 / 2,
        l3: at.l3 / 2,
    }
}

/// Into how many parts refinement cuts a location along an axis.
fn factor(dims: u32, axis: u32) -> u32
    ensures { result ≡ factor_of dims axis }
{
    if axis < dims { 2 } else { 1 }
}

/// The child `j` of `at`, one level finer, on a mesh with `dims` axes in use.
///
/// The lowest bit of `j` chooses the low or the high half along x1, the next along x2, the next along x3.
pub fn child(at: &Loc, j: u32, dims: u32) -> Loc
    requires least { 1 ≤ dims }
    requires most { dims ≤ 3 }
    requires valid { IsLoc dims at.now }
    requires coarse { at.now.level < 10 }
    requires one_of { j < parts dims }
    ensures part { result ≡ child_of dims at.now j }
    ensures valid { IsLoc dims result }
{
    let (first, second, third) = (factor(dims, 0), factor(dims, 1), factor(dims, 2));
    Loc {
        level: at.level + 1,
        l1: first * at.l1 + j % first,
        l2: second * at.l2 + j / 2 % second,
        l3: third * at.l3 + j / 4 % third,
    }
}

/// The coordinate of `at` along an axis.
pub(crate) fn coordinate(at: &Loc, axis: u32) -> u32
    ensures { result ≡ axis_of at.now axis }
{
    match axis {
        0 => at.l1,
        1 => at.l2,
        _ => at.l3,
    }
}

/// The location at another coordinate along an axis.
fn moved(at: &Loc, axis: u32, to: u32) -> Loc
    ensures { result ≡ moved_of at.now axis to }
{
    match axis {
        0 => Loc { l1: to, ..*at },
        1 => Loc { l2: to, ..*at },
        _ => Loc { l3: to, ..*at },
    }
}

/// How many locations of a level lie along an axis.
fn blocks_along(shape: &Shape, axis: u32, level: u32) -> u32
    requires shape { IsShape shape.now }
    requires axis { axis < 3 }
    requires level { level ≤ 10 }
    ensures value { result ≡ blocks_along_of shape.now axis level }
    ensures bound { result ≤ 65536 * 2 ^ 10 }
{
    shape.root[axis as usize] * factor(shape.dims, axis).pow(level)
}

/// One step up or down along an axis of `count` places, round its end where it wraps.
fn step(count: u32, wrap: bool, high: bool, from: u32) -> Option<u32>
    requires { from < count }
    ensures value { result ≡ step_of count wrap high from }
    ensures within { IfSome result (λ to. to < count) }
{
    match high {
        true if from + 1 < count => Some(from + 1),
        true => wrap.then_some(0),
        false if from > 0 => Some(from - 1),
        false => wrap.then_some(count - 1),
    }
}

/// The coordinate one step up or down from `at` along an axis.
pub(crate) fn beside(at: &Loc, axis: u32, high: bool, shape: &Shape) -> Option<u32>
    requires shape { IsShape shape.now }
    requires valid { IsIn shape.now at.now }
    requires axis { axis < 3 }
    ensures value { result ≡ beside_of shape.now at.now axis high }
    ensures within { IfSome result (λ to. to < blocks_along_of shape.now axis at.now.level) }
{
    let count = blocks_along(shape, axis, at.level);
    step(count, shape.wrap[axis as usize], high, coordinate(at, axis))
}

/// The location of the same level across a side, none exactly at a face of the domain that does not wrap.
pub fn across(at: &Loc, side: Side, shape: &Shape) -> Option<Loc>
    requires shape { IsShape shape.now }
    requires valid { IsIn shape.now at.now }
    requires axis { side.axis < shape.now.dims }
    ensures value { result ≡ across_of shape.now at.now side.axis side.high }
    ensures within { IfSome result (IsIn shape.now) }
{
    let to = beside(at, side.axis, side.high, shape)?;
    Some(moved(at, side.axis, to))
}
