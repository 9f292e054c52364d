//! The roots, inner nodes and leaves of a tree, listed in their order.

ghost use Rattle.std.specs.Prelude.{◌≡◌, ◌+◌, ◌-◌, ◌*◌, ◌/◌, ◌^◌, ◌<◌, ◌≤◌, ◌++◌, IfOk, IfSome, IfNone, length, All};
ghost use Rattle.std.specs.Bool.{MatchBool};
ghost use Rattle.std.specs.List.{flat_map};
ghost use Rattle.morton_order.specs.Space.{IsLoc, IsShape, parts as parts_of};
ghost use Rattle.block_tree.specs.Tree.{is_listed};
ghost use Rattle.block_tree.specs.Leaves.{inner_below as inner_below_of, leaves_below as leaves_below_of, leaves_of, roots as roots_of, roots_in as roots_in_of};
ghost use Rattle.block_tree.specs.Leaves.{begins_inside as begins_inside_of};

use crate::nodes::Nodes;
use morton_order::{Loc, Shape, child};
use std::alloc::{AllocError, Global};

/// The greatest number of leaves of a tree.
pub(crate) const MOST_LEAVES: usize = 65536;

/// Whether a cube of `2^k` root blocks along each axis begins inside the domain.
fn begins_inside(shape: &Shape, k: u32, x: u32, y: u32, z: u32) -> bool
    requires few { k ≤ 16 }
    requires x { x * 2 ^ k < 65536 }
    requires y { y * 2 ^ k < 65536 }
    requires z { z * 2 ^ k < 65536 }
    ensures value { result ≡ begins_inside_of shape.now k x y z }
{
    let width = 2u32.pow(k);
    x * width < shape.root[0] && y * width < shape.root[1] && z * width < shape.root[2]
}

/// Puts the root blocks in a cube of `2^k` along each axis at the end of a list, in the order of their keys.
///
/// Answers whether it came to the end: it gives up where the list would have more locations than a tree has leaves.
pub(crate) fn push_roots(
    shape: &Shape,
    k: u32,
    x: u32,
    y: u32,
    z: u32,
    roots: &mut Vec<Loc>,
) -> Result<bool, AllocError>
    requires few { k ≤ 16 }
    requires x { (x + 1) * 2 ^ k ≤ 65536 }
    requires y { (y + 1) * 2 ^ k ≤ 65536 }
    requires z { (z + 1) * 2 ^ k ≤ 65536 }
    ensures whole { IfOk result (λ whole. MatchBool whole
        (roots.new.items ≡ roots.old.items ++ roots_in_of k shape.now x y z)
        (MOST_LEAVES < length (roots.old.items ++ roots_in_of k shape.now x y z))) }
{
    if !begins_inside(shape, k, x, y, z) {
        return Ok(true);
    }
    if k == 0 {
        if roots.len() == MOST_LEAVES {
            return Ok(false);
        }
        roots.push(Loc {
            level: 0,
            l1: x,
            l2: y,
            l3: z,
        })?;
        return Ok(true);
    }
    for j in 0..8 {
        if !push_roots(
            shape,
            k - 1,
            2 * x + j % 2,
            2 * y + j / 2 % 2,
            2 * z + j / 4,
            roots,
        )? {
            return Ok(false);
        }
    }
    Ok(true)
}

/// How many children a location has on a mesh with `dims` axes in use.
pub(crate) fn parts(dims: u32) -> u32
    requires least { 1 ≤ dims }
    requires most { dims ≤ 3 }
    ensures value { result ≡ parts_of dims }
{
    2u32.pow(dims)
}

/// Puts the inner nodes and the leaves at and below a location at the ends of two lists, in the order of their keys.
///
/// `nodes` are the inner nodes of the tree; `k` counts the levels that may follow.
pub(crate) fn push_below(
    nodes: &Nodes,
    dims: u32,
    k: u32,
    at: &Loc,
    inner: &mut Vec<Loc>,
    leaves: &mut Vec<Loc>,
) -> Result<(), AllocError>
    requires least { 1 ≤ dims }
    requires most { dims ≤ 3 }
    requires valid { IsLoc dims at.now }
    requires level { at.now.level + k ≡ 10 }
    ensures inner { IfOk result (λ _. inner.new.items
        ≡ inner.old.items ++ inner_below_of k dims (is_listed nodes.now) at.now) }
    ensures leaves { IfOk result (λ _. leaves.new.items
        ≡ leaves.old.items ++ leaves_below_of k dims (is_listed nodes.now) at.now) }
{
    if k == 0 || !nodes.contains(at) {
        leaves.push(*at)?;
        return Ok(());
    }
    inner.push(*at)?;
    for j in 0..parts(dims) {
        let part = child(at, j, dims);
        push_below(nodes, dims, k - 1, &part, inner, leaves)?;
    }
    Ok(())
}

/// The root blocks in the order of their keys, of a lattice with at most as many as a tree has leaves.
pub(crate) fn list_roots(alloc: Global, shape: &Shape) -> Result<Vec<Loc>, AllocError>
    requires { length (roots_of shape.now) ≤ 65536 }
    ensures { IfOk result (λ list. list.items ≡ roots_of shape.now) }
{
    let mut list = Vec::new(alloc);
    push_roots(shape, 16, 0, 0, 0, &mut list)?;
    Ok(list)
}

/// The leaves of a tree in the order of their keys. `nodes` are its inner nodes.
pub(crate) fn list_leaves(
    alloc: Global,
    shape: &Shape,
    roots: &[Loc],
    nodes: &Nodes,
) -> Result<Vec<Loc>, AllocError>
    requires shape { IsShape shape.now }
    requires roots { roots.now ≡ roots_of shape.now }
    ensures { IfOk result (λ leaves. leaves.items ≡ leaves_of shape.now (is_listed nodes.now)) }
{
    let mut inner = Vec::new(alloc);
    let mut leaves = Vec::with_capacity(alloc, roots.len())?;
    for i in 0..roots.len() {
        push_below(nodes, shape.dims, 10, &roots[i], &mut inner, &mut leaves)?;
    }
    Ok(leaves)
}

/// How many inner nodes a tree with so many roots may have: each adds its children but one to the leaves.
pub(crate) fn most_inner(roots: usize, dims: u32) -> usize
    requires roots { roots ≤ 65536 }
    requires least { 1 ≤ dims }
    requires most { dims ≤ 3 }
    ensures { result ≡ (65536 - roots) / (parts_of dims - 1) }
{
    (MOST_LEAVES - roots) / (parts(dims) - 1) as usize
}

/// The root blocks in the order of their keys, none where they are more than a tree has leaves.
pub(crate) fn few_roots(alloc: Global, shape: &Shape) -> Result<Option<Vec<Loc>>, AllocError>
    ensures some { IfOk result (λ found. IfSome found
        (λ list. (list.items ≡ roots_of shape.now) × (length list.items ≤ 65536))) }
    ensures none { IfOk result (λ found. IfNone found (65536 < length (roots_of shape.now))) }
{
    let mut list = Vec::new(alloc);
    if push_roots(shape, 16, 0, 0, 0, &mut list)? && list.len() <= MOST_LEAVES {
        Ok(Some(list))
    } else {
        Ok(None)
    }
}
