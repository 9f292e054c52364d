//! What comes to a leaf of the next tree.

ghost use Rattle.std.specs.Prelude.{◌≡◌, ◌<◌, ◌≤◌, ℕ, true, None};
ghost use Rattle.std.specs.List.{slice_index_or};
ghost use Rattle.morton_order.specs.Space.{parts as parts_of};
ghost use Rattle.remesh.specs.Sources.{IsNext, IsNumberOf, counter_after, earlier as earlier_of, is_below, is_on};
ghost use Rattle.remesh.specs.Leaves.{plain};
ghost use Rattle.remesh.specs.Fields.{CanCarry, comes, idle_on};

use crate::leaf::NewLeaf;
use cell_block::MeshState;
use dense_remesh::{Origin, child_count};
use sparse_pool::Place;

/// The first field from one on that is allocated on an old leaf.
fn next_on(old: &MeshState, leaf: Option<u32>, from: u32) -> Option<u32>
    requires { IsNumberOf old.now leaf }
    ensures { IsNext (is_on old.now leaf) from old.now.fields result }
{
    match leaf {
        Some(leaf) => old.next_field(leaf, from),
        None => None,
    }
}

/// The lower of two numbers, of which there may be one or none.
fn earlier(one: Option<u32>, other: Option<u32>) -> Option<u32>
    ensures { result ≡ earlier_of one other }
{
    match (one, other) {
        (Some(one), Some(other)) => Some(one.min(other)),
        (Some(one), None) => Some(one),
        (None, other) => other,
    }
}

/// The first field from one on that is allocated on one of the children of a block.
fn next_below(dims: u32, old: &MeshState, numbers: &[Option<u32>; 8], from: u32) -> Option<u32>
    requires least { 1 ≤ dims }
    requires most { dims ≤ 3 }
    requires numbers { (j : ℕ) → j < parts_of dims → IsNumberOf old.now (slice_index_or numbers.now j None) }
    ensures { IsNext (is_below old.now numbers.now (parts_of dims)) from old.now.fields result }
{
    let mut least = None;
    for j in 0..child_count(dims) {
        least = earlier(least, next_on(old, numbers[j as usize], from));
    }
    least
}

/// The first field from one on that comes to a leaf.
pub(crate) fn next_coming(leaf: &NewLeaf, from: u32) -> Option<u32>
    requires { CanCarry (plain leaf.now) }
    ensures { IsNext (comes (plain leaf.now)) from leaf.now.old.now.fields result }
{
    match &leaf.origin {
        Origin::Leaf(old) => leaf.old.next_field(*old, from),
        Origin::Parent(old) => leaf.old.next_field(*old, from),
        Origin::Children(numbers) => next_below(leaf.layout.dims, leaf.old, numbers, from),
    }
}

/// With which idle count a field comes to a leaf.
pub(crate) fn idle_of(leaf: &NewLeaf, field: u32) -> u32
    requires { comes (plain leaf.now) field ≡ true }
    ensures { result ≡ idle_on (plain leaf.now) field }
{
    match leaf.origin {
        Origin::Leaf(old) => leaf.old.idle(Place { block: old, field }),
        Origin::Parent(_) => 0,
        Origin::Children(_) => 0,
    }
}

/// The tag counter of a leaf: its own where it stays, or none.
pub(crate) fn counter_of(leaf: &NewLeaf) -> u32
    requires { CanCarry (plain leaf.now) }
    ensures { result ≡ counter_after leaf.now.old.now leaf.now.origin }
{
    match leaf.origin {
        Origin::Leaf(old) => leaf.old.counter(old),
        _ => 0,
    }
}
