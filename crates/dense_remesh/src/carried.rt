//! What leaves take with them to the next tree.

ghost use Rattle.std.specs.Prelude.{◌≡◌, ◌≤◌, ◌<◌, None, IfOk, length, map};
ghost use Rattle.std.specs.List.{list_any, range_with_len, slice_index_or};
ghost use Rattle.morton_order.specs.Space.{parts as parts_of};
ghost use Rattle.block_tree.specs.Blocks.{leaves};
ghost use Rattle.problem_set.specs.SettingsOf.{settings_of};
ghost use Rattle.mesh_rules.specs.Fields.{field_count};
ghost use Rattle.dense_mesh.specs.Masks.{AreSlots};
ghost use Rattle.dense_remesh.specs.Lists.{AreCarried, AreCarriedCounters};
ghost use Rattle.dense_remesh.specs.Slots.{carried_slot as carried_slot_of, counter_at as counter_of, keeps as keeps_of, slot_at as slot_of};

use crate::origins::{Origin, child_count, leaf_origins};
use block_tree::Tree;
use dense_mesh::{FieldSlots, Slot};
use mesh_num::NoMemory;
use problem_set::Problem;
use std::alloc::Global;

/// The slot of an old leaf.
fn slot_at(slots: &[Slot], leaf: u32) -> Slot
    ensures { result ≡ slot_of slots.now leaf }
{
    match slots.get(leaf as usize) {
        Some(slot) => *slot,
        None => Slot {
            kept: false,
            idle: 0,
        },
    }
}

/// Whether a field is kept on an old leaf, which may be none.
fn keeps(slots: &[Slot], leaf: Option<u32>) -> bool
    ensures { result ≡ keeps_of slots.now leaf }
{
    match leaf {
        Some(leaf) => slot_at(slots, leaf).kept,
        None => false,
    }
}

/// Whether a field is kept on one of the children of a block.
fn is_kept_below(dims: u32, slots: &[Slot], numbers: &[Option<u32>; 8]) -> bool
    requires least { 1 ≤ dims }
    requires most { dims ≤ 3 }
    ensures { result ≡ list_any (λ j. keeps_of slots.now (slice_index_or numbers.now j None))
        (range_with_len 0 (parts_of dims)) }
{
    for j in 0..child_count(dims) {
        if keeps(slots, numbers[j as usize]) {
            return true;
        }
    }
    false
}

/// The slot of a leaf of the next tree.
fn carried_slot(dims: u32, slots: &[Slot], origin: &Origin) -> Slot
    requires least { 1 ≤ dims }
    requires most { dims ≤ 3 }
    ensures { result ≡ carried_slot_of (parts_of dims) slots.now origin.now }
{
    match origin {
        Origin::Leaf(leaf) => slot_at(slots, *leaf),
        Origin::Parent(leaf) => Slot {
            kept: slot_at(slots, *leaf).kept,
            idle: 0,
        },
        Origin::Children(numbers) => Slot {
            kept: is_kept_below(dims, slots, numbers),
            idle: 0,
        },
    }
}

/// The slots of a field on the next tree.
fn field_slots(
    alloc: Global,
    dims: u32,
    slots: &[Slot],
    origins: &[Origin],
) -> Result<FieldSlots, NoMemory>
    requires least { 1 ≤ dims }
    requires most { dims ≤ 3 }
    ensures { IfOk result (λ carried. carried ≡ map (carried_slot_of (parts_of dims) slots.now) origins.now) }
{
    let mut carried = FieldSlots::new(alloc);
    for origin in origins {
        carried.push(carried_slot(dims, slots, origin))?;
    }
    Ok(carried)
}

/// What is kept on the leaves of the next tree, by field and leaf.
///
/// A leaf that stays keeps its slots. A new one keeps a field that its parent or one of its children kept, and has
/// been idle at no check.
pub fn carried_slots(
    alloc: Global,
    problem: &Problem,
    old: &Tree,
    next: &Tree,
    slots: &[FieldSlots],
) -> Result<Vec<FieldSlots>, NoMemory>
    requires slots { AreSlots (field_count (settings_of problem.now)) (length (leaves old.now)) slots.now }
    requires shape { next.now.shape ≡ old.now.shape }
    ensures slots { IfOk result (λ new. AreSlots (field_count (settings_of problem.now))
        (length (leaves next.now)) new.items) }
    ensures mask { IfOk result (λ new. AreCarried (settings_of problem.now) old.now next.now slots.now new.items) }
{
    let origins = leaf_origins(alloc, old, next)?;
    let dims = old.shape().dims;
    let mut new = Vec::new(alloc);
    for f in 0..slots.len() {
        let field = slots[f].as_slice();
        new.push(field_slots(alloc, dims, field, origins.as_slice())?)?;
    }
    Ok(new)
}

/// The counter of an old leaf, which may be none.
fn counter_at(counters: &[u32], leaf: Option<u32>) -> u32
    ensures { result ≡ counter_of counters.now leaf }
{
    match leaf {
        Some(leaf) => counters.get(leaf as usize).copied().unwrap_or(0),
        None => 0,
    }
}

/// The counters of the leaves of the next tree: a leaf that stays keeps its counter, a new one begins with none.
pub fn carried_counters(
    alloc: Global,
    old: &Tree,
    next: &Tree,
    counters: &[u32],
) -> Result<Vec<u32>, NoMemory>
    ensures { IfOk result (λ new. AreCarriedCounters old.now next.now counters.now new.items) }
{
    let mut new = Vec::with_capacity(alloc, next.len() as usize)?;
    for leaf in 0..next.len() {
        new.push(counter_at(counters, old.find(&next.leaf_at(leaf))))?;
    }
    Ok(new)
}
