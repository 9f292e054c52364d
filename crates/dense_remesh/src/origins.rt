//! The old leaves in whose place the leaves of a next tree stand.

ghost use Rattle.std.specs.Prelude.{◌≡◌, ◌≤◌, ◌<◌, IfOk};
ghost use Rattle.morton_order.specs.Space.{IsIn, parts as parts_of};
ghost use Rattle.block_tree.specs.Blocks.{IsBlockTree, leaves};
ghost use Rattle.dense_remesh.specs.Origins.{AreChildren, AreOrigins, IsOrigin, parent_number};

use block_tree::Tree;
use mesh_num::NoMemory;
use morton_order::{Loc, child, parent};
use std::alloc::Global;

/// The old leaves in whose place a leaf of the next tree stands, by their numbers.
#[derive(Clone, Copy)]
pub enum Origin {
    /// It was a leaf.
    Leaf(u32),
    /// Its parent was a leaf.
    Parent(u32),
    /// Neither was; those of its children that were leaves.
    Children([Option<u32>; 8]),
}

/// How many children a block has.
pub fn child_count(dims: u32) -> u32
    requires least { 1 ≤ dims }
    requires most { dims ≤ 3 }
    ensures value { result ≡ parts_of dims }
    ensures most { result ≤ 8 }
{
    match dims {
        1 => 2,
        2 => 4,
        _ => 8,
    }
}

/// The children of a location that are leaves of a tree.
fn child_leaves(tree: &Tree, at: &Loc) -> [Option<u32>; 8]
    requires { IsIn tree.now.shape at.now }
    ensures { AreChildren tree.now at.now result }
{
    let mut numbers = [None; 8];
    let dims = tree.shape().dims;
    let _count = tree.len();
    if at.level == 10 {
        return numbers;
    }
    for j in 0..child_count(dims) {
        numbers[j as usize] = tree.find(&child(at, j, dims));
    }
    numbers
}

/// The leaf of a tree that a location is a child of.
fn parent_leaf(tree: &Tree, at: &Loc) -> Option<u32>
    requires { IsIn tree.now.shape at.now }
    ensures { result ≡ parent_number tree.now at.now }
{
    let _count = tree.len();
    if at.level == 0 {
        return None;
    }
    tree.find(&parent(at))
}

/// The old leaves in whose place a location stands.
fn origin_of(old: &Tree, at: &Loc) -> Origin
    requires { IsIn old.now.shape at.now }
    ensures { IsOrigin old.now at.now result }
{
    if let Some(leaf) = old.find(at) {
        return Origin::Leaf(leaf);
    }
    if let Some(leaf) = parent_leaf(old, at) {
        return Origin::Parent(leaf);
    }
    Origin::Children(child_leaves(old, at))
}

/// The old leaves in whose place each leaf of the next tree stands.
pub fn leaf_origins(alloc: Global, old: &Tree, next: &Tree) -> Result<Vec<Origin>, NoMemory>
    requires { next.now.shape ≡ old.now.shape }
    ensures origins { IfOk result (λ origins. AreOrigins old.now (leaves next.now) origins.items) }
    ensures old { IsBlockTree old.now }
    ensures next { IsBlockTree next.now }
{
    let _count = old.len();
    let mut origins = Vec::with_capacity(alloc, next.len() as usize)?;
    for leaf in 0..next.len() {
        origins.push(origin_of(old, &next.leaf_at(leaf)))?;
    }
    Ok(origins)
}
