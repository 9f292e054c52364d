//! The inner nodes that are wanted next.

ghost use Rattle.std.specs.Prelude.{◌≡◌, ◌<◌, ◌≤◌, ◌++◌, IfOk, Some, length, slice_get, zip};
ghost use Rattle.std.specs.List.{flat_map};
ghost use Rattle.morton_order.specs.Space.{IsIn, parts as parts_of};
ghost use Rattle.block_tree.specs.Tree.{is_listed};
ghost use Rattle.block_tree.specs.Blocks.{is_inner_of, leaves};
ghost use Rattle.block_tree.specs.Next.{is_merge, is_refine, merges as merges_of};
ghost use Rattle.tree_change.specs.Tagged.{tag_of};
ghost use Rattle.tree_change.specs.Listed.{kept, refined, where_true};

use block_tree::{Tag, Tree};
use morton_order::{Loc, child};
use std::alloc::{AllocError, Global};

/// How many children a node has on a mesh with `dims` axes in use.
fn parts(dims: u32) -> u32
    requires least { 1 ≤ dims }
    requires most { dims ≤ 3 }
    ensures { result ≡ parts_of dims }
{
    2u32.pow(dims)
}

/// The tag with a number, none past the last one.
fn tag_with(tags: &[Tag], i: usize) -> Option<Tag>
    ensures { result ≡ slice_get tags.now i }
{
    tags.get(i).copied()
}

/// The tag of the leaf at a location, none where no leaf is.
fn tag(tree: &Tree, tags: &[Tag], at: &Loc) -> Option<Tag>
    requires { length tags.now ≡ length (leaves tree.now) }
    ensures { result ≡ tag_of tree.now tags.now at.now }
{
    match tree.find(at) {
        Some(i) => tag_with(tags, i as usize),
        None => None,
    }
}

/// Whether a leaf is there that may merge.
fn may_merge(tag: Option<Tag>) -> bool
    ensures { result ≡ is_merge tag }
{
    match tag {
        Some(Tag::Merge) => true,
        _ => false,
    }
}

/// Whether an inner node merges: each of its children is a leaf that may.
fn merges(tree: &Tree, tags: &[Tag], at: &Loc) -> bool
    requires tags { length tags.now ≡ length (leaves tree.now) }
    requires inside { IsIn tree.now.shape at.now }
    requires room { at.now.level < 10 }
    ensures { result ≡ merges_of tree.now.shape.dims (tag_of tree.now tags.now) at.now }
{
    let _ = tree.len();
    let dims = tree.shape().dims;
    for j in 0..parts(dims) {
        if !may_merge(tag(tree, tags, &child(at, j, dims))) {
            return false;
        }
    }
    true
}

/// Puts an inner node at the end of a list, where it does not merge.
fn keep(tree: &Tree, tags: &[Tag], at: &Loc, wanted: &mut Vec<Loc>) -> Result<(), AllocError>
    requires tags { length tags.now ≡ length (leaves tree.now) }
    requires inside { IsIn tree.now.shape at.now }
    requires room { at.now.level < 10 }
    ensures { IfOk result (λ _. wanted.new.items ≡ wanted.old.items ++ kept tree.now tags.now at.now) }
{
    if merges(tree, tags, at) {
        return Ok(());
    }
    wanted.push(*at)?;
    Ok(())
}

/// The inner nodes that do not merge; `nodes` are the inner nodes of the tree.
pub(crate) fn kept_nodes(
    alloc: Global,
    tree: &Tree,
    tags: &[Tag],
    nodes: &[Loc],
) -> Result<Vec<Loc>, AllocError>
    requires tags { length tags.now ≡ length (leaves tree.now) }
    requires nodes { is_listed nodes.now ≡ is_inner_of tree.now }
    ensures { IfOk result (λ wanted. wanted.items ≡ flat_map (kept tree.now tags.now) nodes.now) }
{
    let _ = tree.len();
    let mut wanted = Vec::with_capacity(alloc, nodes.len())?;
    for i in 0..nodes.len() {
        keep(tree, tags, &nodes[i], &mut wanted)?;
    }
    Ok(wanted)
}

/// Puts a leaf at the end of a list, where it is to be refined.
fn refine(at: Loc, tag: Tag, wanted: &mut Vec<Loc>) -> Result<(), AllocError>
    ensures { IfOk result (λ _. wanted.new.items ≡ wanted.old.items ++ where_true (is_refine (Some tag)) at) }
{
    if let Tag::Refine = tag {
        wanted.push(at)?;
    }
    Ok(())
}

/// Puts the leaves that are to be refined at the end of a list.
pub(crate) fn push_refined(
    leaves: &[Loc],
    tags: &[Tag],
    wanted: &mut Vec<Loc>,
) -> Result<(), AllocError>
    requires { length tags.now ≡ length leaves.now }
    ensures { IfOk result (λ _. wanted.new.items ≡ wanted.old.items ++ flat_map refined (zip leaves.now tags.now)) }
{
    for i in 0..leaves.len() {
        refine(leaves[i], tags[i], wanted)?;
    }
    Ok(())
}
