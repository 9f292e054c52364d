//! The inner nodes that static boxes want.

ghost use Rattle.std.specs.Prelude.{◌≡◌, ◌+◌, ◌<◌, ◌≤◌, [], IfOk, IfSome, IfNone, All, length};
ghost use Rattle.std.specs.Bool.{MatchBool};
ghost use Rattle.morton_order.specs.Space.{IsIn, IsShape};
ghost use Rattle.block_tree.specs.declared.boxes.StaticBox.{StaticBox};
ghost use Rattle.block_tree.specs.Tree.{is_listed};
ghost use Rattle.block_tree.specs.Leaves.{inner_below, inner_of, leaves_of, roots as roots_of};
ghost use Rattle.block_tree.specs.Least.{meets as meets_of, meets_along as meets_along_of, opening, wanted_by};
ghost use Rattle.block_tree.specs.Worklist.{is_asked};
ghost use Rattle.block_tree.specs.Nodes.{with_nodes};
ghost use Rattle.block_tree.specs.Worklist.{AddsOnly};

use crate::balance::balance;
use crate::boxes::StaticBox;
use crate::grow::{most_inner, parts};
use crate::nodes::Nodes;
use morton_order::{Loc, Shape, child};
use std::alloc::{AllocError, Global};

/// Whether a location of blocks of `cells` cells meets a range of root cells along an axis.
fn meets_along(cells: u32, level: u32, at: u32, lo: u32, hi: u32) -> bool
    requires cells { cells ≤ 64 }
    requires level { level ≤ 10 }
    ensures { result ≡ meets_along_of cells level at lo hi }
{
    let scale = 2u64.pow(level);
    let cells = u64::from(cells);
    let at = u64::from(at);
    at * cells < (u64::from(hi) + 1) * scale && u64::from(lo) * scale < (at + 1) * cells
}

/// Whether a location meets a box along each axis in use.
fn meets(shape: &Shape, cells: &[u32; 3], area: &StaticBox, at: &Loc) -> bool
    requires shape { IsShape shape.now }
    requires cells { All (λ n. (1 ≤ n) × (n ≤ 64)) cells.now }
    requires level { at.now.level ≤ 10 }
    ensures { result ≡ meets_of shape.now cells.now area.now at.now }
{
    meets_along(cells[0], at.level, at.l1, area.lo[0], area.hi[0])
        && (shape.dims < 2 || meets_along(cells[1], at.level, at.l2, area.lo[1], area.hi[1]))
        && (shape.dims < 3 || meets_along(cells[2], at.level, at.l3, area.lo[2], area.hi[2]))
}

/// Whether a location meets a box of a greater level.
fn wants(shape: &Shape, cells: &[u32; 3], area: &StaticBox, at: &Loc) -> bool
    requires shape { IsShape shape.now }
    requires cells { All (λ n. (1 ≤ n) × (n ≤ 64)) cells.now }
    requires level { at.now.level ≤ 10 }
    ensures { result ≡ is_asked shape.now cells.now at.now area.now }
{
    at.level < area.level && meets(shape, cells, area, at)
}

/// Whether some box wants a location of the domain as an inner node.
fn is_wanted(shape: &Shape, cells: &[u32; 3], boxes: &[StaticBox], at: &Loc) -> bool
    requires shape { IsShape shape.now }
    requires cells { All (λ n. (1 ≤ n) × (n ≤ 64)) cells.now }
    requires valid { IsIn shape.now at.now }
    ensures { result ≡ wanted_by shape.now cells.now boxes.now at.now }
{
    for i in 0..boxes.len() {
        if wants(shape, cells, &boxes[i], at) {
            return true;
        }
    }
    false
}

/// Puts the locations that boxes want, at and below a location, into a set of nodes.
///
/// `k` counts the levels that may follow. Answers whether it came to the end: it gives up once the set has more nodes
/// than `most`.
fn push_wanted(
    shape: &Shape,
    cells: &[u32; 3],
    boxes: &[StaticBox],
    k: u32,
    at: &Loc,
    most: usize,
    nodes: &mut Nodes,
) -> Result<bool, AllocError>
    requires shape { IsShape shape.now }
    requires cells { All (λ n. (1 ≤ n) × (n ≤ 64)) cells.now }
    requires valid { IsIn shape.now at.now }
    requires level { at.now.level + k ≡ 10 }
    ensures whole { IfOk result (λ whole. MatchBool whole
        (nodes.new ≡ with_nodes nodes.old (inner_below k shape.now.dims
        (wanted_by shape.now cells.now boxes.now) at.now)) (most < length nodes.new)) }
    ensures only { IfOk result (λ _. AddsOnly (wanted_by shape.now cells.now boxes.now) nodes.old nodes.new) }
{
    if k == 0 || !is_wanted(shape, cells, boxes, at) {
        return Ok(true);
    }
    nodes.insert(*at)?;
    if nodes.len() > most {
        return Ok(false);
    }
    for j in 0..parts(shape.dims) {
        let part = child(at, j, shape.dims);
        if !push_wanted(shape, cells, boxes, k - 1, &part, most, nodes)? {
            return Ok(false);
        }
    }
    Ok(true)
}

/// The locations that boxes want as inner nodes, put into a set of nodes.
///
/// Answers whether it came to the end: it gives up once the set has more nodes than `most`.
pub(crate) fn push_all_wanted(
    shape: &Shape,
    cells: &[u32; 3],
    boxes: &[StaticBox],
    roots: &[Loc],
    most: usize,
    nodes: &mut Nodes,
) -> Result<bool, AllocError>
    requires shape { IsShape shape.now }
    requires cells { All (λ n. (1 ≤ n) × (n ≤ 64)) cells.now }
    requires roots { roots.now ≡ roots_of shape.now }
    requires empty { nodes.old ≡ [] }
    ensures whole { IfOk result (λ whole. MatchBool whole
        (nodes.new ≡ with_nodes [] (inner_of shape.now (wanted_by shape.now cells.now boxes.now)))
        (most < length nodes.new)) }
    ensures only { IfOk result (λ _. AddsOnly (wanted_by shape.now cells.now boxes.now) [] nodes.new) }
{
    for i in 0..roots.len() {
        if !push_wanted(shape, cells, boxes, 10, &roots[i], most, nodes)? {
            return Ok(false);
        }
    }
    Ok(true)
}

/// The inner nodes of the opening tree, none where they force more leaves than a tree has.
pub(crate) fn opening_nodes(
    alloc: Global,
    shape: &Shape,
    cells: &[u32; 3],
    boxes: &[StaticBox],
    roots: &[Loc],
) -> Result<Option<Nodes>, AllocError>
    requires shape { IsShape shape.now }
    requires cells { All (λ n. (1 ≤ n) × (n ≤ 64)) cells.now }
    requires levels { All (λ (b : StaticBox). b.level ≤ 10) boxes.now }
    requires roots { roots.now ≡ roots_of shape.now }
    requires few { length roots.now ≤ 65536 }
    ensures some { IfOk result (λ found. IfSome found
        (λ nodes. is_listed nodes ≡ opening 9 shape.now cells.now boxes.now)) }
    ensures none { IfOk result (λ found. IfNone found
        (65536 < length (leaves_of shape.now (opening 9 shape.now cells.now boxes.now)))) }
{
    let most = most_inner(roots.len(), shape.dims);
    let mut nodes = Nodes::with_capacity(alloc, 0)?;
    let whole = push_all_wanted(shape, cells, boxes, roots, most, &mut nodes)?;
    if nodes.len() > most || !whole {
        return Ok(None);
    }
    if !balance(alloc, shape, most, &mut nodes)? {
        return Ok(None);
    }
    Ok(Some(nodes))
}
