//! The table of what is behind the sides of the leaves.

ghost use Rattle.std.specs.Prelude.{◌≡◌, ◌<◌, ◌≤◌, IfOk, Some, All, length, map};
ghost use Rattle.morton_order.specs.Space.{IsIn, IsLoc, IsShape};
ghost use Rattle.block_tree.specs.Nodes.{number_in};
ghost use Rattle.block_tree.specs.Table.{answer_of, entry_at, entry_in, entry_of, fine_number as fine_number_of, or_zero};
ghost use Rattle.block_tree.specs.Table.{quartet_of, side_child as side_child_of, sides_of as sides_of_leaf};
ghost use Rattle.block_tree.specs.Worklist.{AreRoomy};

use crate::grow::parts;
use crate::neighbour::{Behind, FineLeaves};
use crate::nodes::Nodes;
use morton_order::{Loc, Shape, Side, across, child, parent};
use std::alloc::{AllocError, Global};

/// Four numbers of leaves; those past the last fine leaf are 0.
#[derive(Clone, Copy)]
pub(crate) struct Quartet {
    pub(crate) numbers: [u16; 4],
}

/// What the table holds for one side of a leaf.
#[derive(Clone, Copy)]
pub(crate) enum Entry {
    Outside,
    Same(u16),
    Coarse(u16),
    Fine(Quartet),
}

/// What the table holds for the sides of a leaf.
#[derive(Clone, Copy)]
pub(crate) struct Sides {
    low1: Entry,
    high1: Entry,
    low2: Entry,
    high2: Entry,
    low3: Entry,
    high3: Entry,
}

impl Sides {
    /// The entry for a side.
    pub(crate) fn at(&self, side: Side) -> Entry
        ensures { result ≡ entry_in self.now side.axis side.high }
    {
        match (side.axis, side.high) {
            (0, false) => self.low1,
            (0, true) => self.high1,
            (1, false) => self.low2,
            (1, true) => self.high2,
            (_, false) => self.low3,
            (_, true) => self.high3,
        }
    }
}

impl Entry {
    /// The entry as it is answered on a mesh with `dims` axes in use.
    pub(crate) fn answer(&self, dims: u32) -> Behind
        requires least { 1 ≤ dims }
        requires most { dims ≤ 3 }
        ensures { result ≡ answer_of dims self.now }
    {
        match *self {
            Entry::Outside => Behind::Outside,
            Entry::Same(i) => Behind::Same(u32::from(i)),
            Entry::Coarse(i) => Behind::Coarse(u32::from(i)),
            Entry::Fine(numbers) => {
                Behind::Fine(FineLeaves::first(numbers, (parts(dims) / 2) as usize))
            }
        }
    }
}

/// The number of a leaf, 0 where the location is none.
fn number(leaves: &Nodes, at: &Loc) -> u16
    requires few { length leaves.now ≤ 65536 }
    ensures { result ≡ or_zero (number_in leaves.now at.now) }
{
    match leaves.number(at) {
        Some(i) => i as u16,
        None => 0,
    }
}

/// The child at a side, counted among those at that side.
fn side_child(side: Side, k: u32) -> u32
    requires { k < 4 }
    ensures { result ≡ side_child_of side.axis side.high k }
{
    let bit = u32::from(side.high);
    match side.axis {
        0 => 2 * k + bit,
        1 => k % 2 + 2 * bit + 4 * (k / 2),
        _ => k + 4 * bit,
    }
}

/// The number of a finer leaf at a side of an inner node, 0 past the last one.
fn fine_number(leaves: &Nodes, at: &Loc, side: Side, k: u32, dims: u32) -> u16
    requires few { length leaves.now ≤ 65536 }
    requires least { 1 ≤ dims }
    requires most { dims ≤ 3 }
    requires valid { IsLoc dims at.now }
    requires coarse { at.now.level < 10 }
    requires axis { side.axis < dims }
    ensures { result ≡ fine_number_of leaves.now dims at.now side.axis side.high k }
{
    if k < parts(dims) / 2 {
        number(leaves, &child(at, side_child(side, k), dims))
    } else {
        0
    }
}

/// The numbers of the finer leaves at a side of an inner node.
fn fine_numbers(leaves: &Nodes, at: &Loc, side: Side, dims: u32) -> Quartet
    requires few { length leaves.now ≤ 65536 }
    requires least { 1 ≤ dims }
    requires most { dims ≤ 3 }
    requires valid { IsLoc dims at.now }
    requires coarse { at.now.level < 10 }
    requires axis { side.axis < dims }
    ensures { result ≡ quartet_of leaves.now dims at.now side.axis side.high }
{
    let first = fine_number(leaves, at, side, 0, dims);
    let second = fine_number(leaves, at, side, 1, dims);
    let third = fine_number(leaves, at, side, 2, dims);
    let fourth = fine_number(leaves, at, side, 3, dims);
    Quartet {
        numbers: [first, second, third, fourth],
    }
}

/// The entry for the location across a side.
fn entry_across(nodes: &Nodes, leaves: &Nodes, shape: &Shape, at: &Loc, side: Side) -> Entry
    requires shape { IsShape shape.now }
    requires few { length leaves.now ≤ 65536 }
    requires roomy { AreRoomy shape.now nodes.now }
    requires valid { IsIn shape.now at.now }
    requires axis { side.axis < shape.now.dims }
    ensures { result ≡ entry_at nodes.now leaves.now shape.now side.axis side.high (Some at.now) }
{
    if let Some(i) = leaves.number(at) {
        return Entry::Same(i as u16);
    }
    if at.level == 0 || nodes.contains(at) {
        let facing = Side {
            axis: side.axis,
            high: !side.high,
        };
        return Entry::Fine(fine_numbers(leaves, at, facing, shape.dims));
    }
    Entry::Coarse(number(leaves, &parent(at)))
}

/// The entry for a side of a leaf.
fn side_entry(
    nodes: &Nodes,
    leaves: &Nodes,
    shape: &Shape,
    at: &Loc,
    axis: u32,
    high: bool,
) -> Entry
    requires shape { IsShape shape.now }
    requires few { length leaves.now ≤ 65536 }
    requires roomy { AreRoomy shape.now nodes.now }
    requires valid { IsIn shape.now at.now }
    ensures { result ≡ entry_of nodes.now leaves.now shape.now at.now axis high }
{
    if axis >= shape.dims {
        return Entry::Outside;
    }
    let side = Side { axis, high };
    match across(at, side, shape) {
        Some(to) => entry_across(nodes, leaves, shape, &to, side),
        None => Entry::Outside,
    }
}

/// The entries for the sides of a leaf.
fn sides_of(nodes: &Nodes, leaves: &Nodes, shape: &Shape, at: &Loc) -> Sides
    requires shape { IsShape shape.now }
    requires few { length leaves.now ≤ 65536 }
    requires roomy { AreRoomy shape.now nodes.now }
    requires valid { IsIn shape.now at.now }
    ensures { result ≡ sides_of_leaf nodes.now leaves.now shape.now at.now }
{
    Sides {
        low1: side_entry(nodes, leaves, shape, at, 0, false),
        high1: side_entry(nodes, leaves, shape, at, 0, true),
        low2: side_entry(nodes, leaves, shape, at, 1, false),
        high2: side_entry(nodes, leaves, shape, at, 1, true),
        low3: side_entry(nodes, leaves, shape, at, 2, false),
        high3: side_entry(nodes, leaves, shape, at, 2, true),
    }
}

/// The entries for the sides of all leaves.
pub(crate) fn table_of(
    alloc: Global,
    nodes: &Nodes,
    leaves: &Nodes,
    shape: &Shape,
) -> Result<Vec<Sides>, AllocError>
    requires shape { IsShape shape.now }
    requires few { length leaves.now ≤ 65536 }
    requires roomy { AreRoomy shape.now nodes.now }
    requires valid { All (IsIn shape.now) leaves.now }
    ensures { IfOk result (λ table. table.items ≡ map (sides_of_leaf nodes.now leaves.now shape.now) leaves.now) }
{
    let mut table = Vec::with_capacity(alloc, leaves.len())?;
    for i in 0..leaves.len() {
        if let Some(at) = leaves.get(i) {
            table.push(sides_of(nodes, leaves, shape, &at))?;
        }
    }
    Ok(table)
}
