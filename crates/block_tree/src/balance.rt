//! The least balanced tree, by a worklist.

ghost use Rattle.std.specs.Prelude.{◌≡◌, ◌<◌, ◌^◌, IfOk, length, All};
ghost use Rattle.std.specs.Bool.{MatchBool};
ghost use Rattle.std.specs.List.{IsDistinct};
ghost use Rattle.morton_order.specs.Space.{IsIn, IsShape, same_loc};
ghost use Rattle.block_tree.specs.Tree.{is_listed};
ghost use Rattle.block_tree.specs.Least.{IsLeast, around};
ghost use Rattle.block_tree.specs.Worklist.{AreForced, AreRoomy};
ghost use Rattle.block_tree.specs.Around.{with_parent, with_parents};

use crate::nodes::Nodes;
use morton_order::{Around, Loc, Shape, neighbours, parent};
use std::alloc::{AllocError, Global};

/// Puts the parent of a location among the nodes, where it has one.
fn add_parent(at: &Loc, shape: &Shape, nodes: &mut Nodes) -> Result<(), AllocError>
    requires shape { IsShape shape.now }
    requires valid { IsIn shape.now at.now }
    ensures added { IfOk result (λ _. nodes.new ≡ with_parent shape.now.dims nodes.old at.now) }
{
    if at.level == 0 {
        return Ok(());
    }
    nodes.insert(parent(at))
}

/// Puts the parents of some locations among the nodes, one after another.
fn add_parents(places: &Around, shape: &Shape, nodes: &mut Nodes) -> Result<(), AllocError>
    requires shape { IsShape shape.now }
    requires valid { All (IsIn shape.now) places.now }
    ensures added { IfOk result (λ _. nodes.new ≡ with_parents shape.now.dims nodes.old places.now) }
{
    for i in 0..places.len() {
        if let Some(at) = places.get(i) {
            add_parent(at, shape, nodes)?;
        }
    }
    Ok(())
}

/// Puts the parents of a location and of all that it touches among the nodes.
fn add_around(alloc: Global, at: &Loc, shape: &Shape, nodes: &mut Nodes) -> Result<(), AllocError>
    requires shape { IsShape shape.now }
    requires valid { IsIn shape.now at.now }
    ensures added { IfOk result (λ _. nodes.new ≡ with_parents shape.now.dims nodes.old (around shape.now at.now)) }
{
    add_parent(at, shape, nodes)?;
    add_parents(&neighbours(alloc, at, shape), shape, nodes)
}

/// Adds to some inner nodes all those that a balanced tree with them must have, one location after another.
///
/// Answers whether the set is whole; it gives up once it has more nodes than `most`.
pub(crate) fn balance(
    alloc: Global,
    shape: &Shape,
    most: usize,
    nodes: &mut Nodes,
) -> Result<bool, AllocError>
    requires shape { IsShape shape.now }
    requires roomy { AreRoomy shape.now nodes.old }
    ensures whole { IfOk result (λ whole. MatchBool whole
        (IsLeast shape.now (is_listed nodes.old) (is_listed nodes.new)) (most < length nodes.new)) }
    ensures forced { IfOk result (λ _. AreForced shape.now (is_listed nodes.old) nodes.new) }
    ensures distinct { IfOk result (λ _. IsDistinct same_loc nodes.new) }
    ensures small { IfOk result (λ _. length nodes.new < 2 ^ 63) }
{
    for done in 0..most {
        let Some(at) = nodes.get(done) else {
            break;
        };
        add_around(alloc, &at, shape, nodes)?;
    }
    Ok(nodes.len() <= most)
}
