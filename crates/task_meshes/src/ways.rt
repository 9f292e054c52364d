//! How two leaves stand to each other.

ghost use Rattle.std.specs.Prelude.{◌≡◌, ◌%◌, ◌<◌, ◌≤◌};
ghost use Rattle.morton_order.specs.Space.{child_number, factor};
ghost use Rattle.letter_laws.specs.Sides.{side_part as part_number};
ghost use Rattle.mesh_rules.specs.Regions.{sender_of};
ghost use Rattle.cycle_kernels.specs.Letters.{how_by, how_sent, part_by, part_covered};
ghost use Rattle.task_meshes.specs.Exchanges.{exchange_at};
ghost use Rattle.task_meshes.specs.Meshes.{leaf_count, mesh_of};

use crate::mesh::TaskMesh;
use ghost_buffers::How;
use morton_order::{Loc, Side};

/// How the sender of a letter stands to its receiver.
#[derive(Clone, Copy)]
pub struct Way {
    /// What the sender is to its receiver.
    pub how: How,
    /// The part of the coarser one's side that the finer one covers; 0 between leaves of one level.
    pub half: u32,
}

/// Which half of its parent a location is along an axis, by its coordinate.
fn half_at(dims: u32, axis: u32, coordinate: u32) -> u32
    ensures value { result ≡ coordinate % factor dims axis }
    ensures bit { result ≤ 1 }
{
    if axis < dims { coordinate % 2 } else { 0 }
}

/// The number of the part of a side that a location covers beside a coarser one.
fn side_part(dims: u32, axis: u32, at: &Loc) -> u32
    ensures part { result ≡ part_number axis (child_number dims at.now) }
    ensures few { result < 4 }
{
    let first = half_at(dims, 0, at.l1);
    let second = half_at(dims, 1, at.l2);
    let third = half_at(dims, 2, at.l3);
    match axis {
        0 => second + 2 * third,
        1 => first + 2 * third,
        _ => first + 2 * second,
    }
}

/// What the sender of a letter is to its receiver.
fn how_between(from: &Loc, to: &Loc) -> How
    ensures { result ≡ how_by (sender_of from.now to.now) }
{
    if to.level < from.level {
        How::Finer
    } else if from.level < to.level {
        How::Coarser
    } else {
        How::Same
    }
}

/// The part of the coarser one's side between two leaves.
fn half_between(on: &TaskMesh, how: How, from: u32, to: u32, side: Side) -> u32
    requires from { from < leaf_count on.now }
    requires to { to < leaf_count on.now }
    ensures half { result ≡ part_by how (mesh_of on.now) (exchange_at from to side) }
    ensures few { result < 4 }
{
    let dims = on.tree.shape().dims;
    match how {
        How::Same => 0,
        How::Finer => side_part(dims, side.axis, &on.tree.leaf_at(from)),
        How::Coarser => side_part(dims, side.axis, &on.tree.leaf_at(to)),
    }
}

/// How the sender of a letter stands to its receiver, and the part of the coarser one's side between them.
///
/// `side` is the receiver's.
pub fn way_between(on: &TaskMesh, from: u32, to: u32, side: Side) -> Way
    requires from { from < leaf_count on.now }
    requires to { to < leaf_count on.now }
    ensures how { result.how ≡ how_sent (mesh_of on.now) (exchange_at from to side) }
    ensures half { result.half ≡ part_covered (mesh_of on.now) (exchange_at from to side) }
    ensures few { result.half < 4 }
{
    let how = how_between(&on.tree.leaf_at(from), &on.tree.leaf_at(to));
    let half = half_between(on, how, from, to, side);
    Way { how, half }
}
