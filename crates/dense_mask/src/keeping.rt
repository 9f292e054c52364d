//! The mask after an exchange, after a reaction, and after a check.

ghost use Rattle.std.specs.Prelude.{◌≡◌, ◌<◌, ℕ, [], false, not, map, length, IfOk};
ghost use Rattle.std.specs.List.{slice_index_or};
ghost use Rattle.block_tree.specs.Blocks.{leaves};
ghost use Rattle.problem_set.specs.SettingsOf.{settings_of};
ghost use Rattle.sparse_pool.specs.Idle.{idle};
ghost use Rattle.mesh_rules.specs.Sums.{table};
ghost use Rattle.mesh_rules.specs.Fields.{field_count};
ghost use Rattle.mesh_rules.specs.Mask.{called, checked_slot, exchange_calls, kept_by_check, kept_by_exchange, kept_by_reaction};
ghost use Rattle.dense_mesh.specs.Meshes.{IsMeshIn, mesh_of};
ghost use Rattle.dense_mesh.specs.Masks.{AreSlots, mask_of, slot_in, slot_of};
ghost use Rattle.dense_mask.specs.SlotSteps.{AreSlotsBy, checked_by, slot_on};

use crate::fields::is_sparse;
use block_layout::Layout;
use block_tree::Tree;
use cell_lists::Cells;
use dense_mesh::{FieldSlots, FieldTotals, Slot};
use mesh_num::NoMemory;
use package_fields::Items;
use problem_set::Problem;
use sparse_pool::{is_idle, note_check};
use std::alloc::Global;

/// A slot after an exchange that calls for its field there, or does not.
fn keep_called(slot: Slot, calls: bool) -> Slot
    ensures { slot_of result ≡ called (slot_of slot) calls }
{
    if slot.kept {
        return slot;
    }
    Slot {
        kept: calls,
        idle: 0,
    }
}

/// A slot after a reaction that left these totals there.
fn keep_above(slot: Slot, cells: &[u64], threshold: u64) -> Slot
    ensures { slot_of result ≡ called (slot_of slot) (not (idle cells.now threshold)) }
{
    if slot.kept {
        return slot;
    }
    Slot {
        kept: !is_idle(cells, threshold),
        idle: 0,
    }
}

/// The slot of a sparse field after a check that finds these totals there.
fn check_slot(slot: Slot, cells: &[u64], threshold: u64, limit: u32) -> Slot
    requires { slot.idle < limit }
    ensures { slot_of result ≡ checked_by limit (idle cells.now threshold) (slot_of slot) }
{
    if !slot.kept {
        return slot;
    }
    let checked = note_check(slot.idle, is_idle(cells, threshold), limit);
    if checked.free {
        Slot {
            kept: false,
            idle: 0,
        }
    } else {
        Slot {
            kept: true,
            idle: checked.count,
        }
    }
}

/// A field's slots after an exchange, of which is said for each leaf whether it calls for the field there.
fn keep_called_slots(alloc: Global, calls: &[bool], slots: &[Slot]) -> Result<FieldSlots, NoMemory>
    requires { length calls.now ≡ length slots.now }
    ensures { IfOk result (λ new. AreSlotsBy (length slots.now)
        (λ leaf. called (slot_of (slot_on slots.now leaf)) (slice_index_or calls.now leaf false)) new) }
{
    let mut new = Vec::with_capacity(alloc, slots.len())?;
    for leaf in 0..slots.len() {
        new.push(keep_called(slots[leaf], calls[leaf]))?;
    }
    Ok(FieldSlots::from_vec(new))
}

/// A field's slots after a reaction that left these totals on each leaf.
fn keep_above_slots(
    alloc: Global,
    list: &[Cells],
    threshold: u64,
    slots: &[Slot],
) -> Result<FieldSlots, NoMemory>
    requires { length list.now ≡ length slots.now }
    ensures { IfOk result (λ new. AreSlotsBy (length slots.now)
        (λ leaf. called (slot_of (slot_on slots.now leaf)) (not (idle (slice_index_or list.now leaf []) threshold)))
        new) }
{
    let mut new = Vec::with_capacity(alloc, slots.len())?;
    for leaf in 0..slots.len() {
        new.push(keep_above(slots[leaf], list[leaf].as_slice(), threshold))?;
    }
    Ok(FieldSlots::from_vec(new))
}

/// A sparse field's slots after a check that finds these totals on each leaf.
fn check_slots(
    alloc: Global,
    list: &[Cells],
    threshold: u64,
    limit: u32,
    slots: &[Slot],
) -> Result<FieldSlots, NoMemory>
    requires leaves { length list.now ≡ length slots.now }
    requires idle { (leaf : ℕ) → leaf < length slots.now → (slot_on slots.now leaf).idle < limit }
    ensures { IfOk result (λ new. AreSlotsBy (length slots.now)
        (λ leaf. checked_by limit (idle (slice_index_or list.now leaf []) threshold)
        (slot_of (slot_on slots.now leaf))) new) }
{
    let mut new = Vec::with_capacity(alloc, slots.len())?;
    for leaf in 0..slots.len() {
        new.push(check_slot(slots[leaf], list[leaf].as_slice(), threshold, limit))?;
    }
    Ok(FieldSlots::from_vec(new))
}

/// A field's slots after a check, which leaves a field that is not sparse as it is.
fn check_field(
    alloc: Global,
    problem: &Problem,
    field: u32,
    list: &[Cells],
    slots: &[Slot],
) -> Result<FieldSlots, NoMemory>
    requires field { field < field_count (settings_of problem.now) }
    requires leaves { length list.now ≡ length slots.now }
    requires idle { (leaf : ℕ) → leaf < length slots.now → (slot_on slots.now leaf).idle < problem.now.dealloc_count }
    ensures { IfOk result (λ new. AreSlotsBy (length slots.now)
        (λ leaf. checked_slot (settings_of problem.now) field
        (idle (slice_index_or list.now leaf []) problem.now.dealloc_threshold) (slot_of (slot_on slots.now leaf)))
        new) }
{
    if !is_sparse(problem, field) {
        return copy_slots(alloc, slots);
    }
    check_slots(
        alloc,
        list,
        problem.dealloc_threshold,
        problem.dealloc_count,
        slots,
    )
}

/// The same slots.
fn copy_slots(alloc: Global, slots: &[Slot]) -> Result<FieldSlots, NoMemory>
    ensures { IfOk result (λ new. new ≡ slots.now) }
{
    Ok(FieldSlots::from_slice(alloc, slots)?)
}

/// The mask after the exchange of a stage, of which `calls` says for each field and each leaf whether it calls for the
/// field there. What is kept stays so; `problem`, `tree` and `lists` say which mesh was exchanged.
pub fn keep_by_exchange(
    alloc: Global,
    problem: &Problem,
    tree: &Tree,
    lists: &[FieldTotals],
    calls: &[Items<bool>],
    slots: &[FieldSlots],
) -> Result<Vec<FieldSlots>, NoMemory>
    requires calls { let p = settings_of problem.now in let m = mesh_of tree.now problem.now.cells lists.now in
        calls.now ≡ table (field_count p) (λ f. map (exchange_calls p m f) m.leaves) }
    requires slots { AreSlots (field_count (settings_of problem.now)) (length (leaves tree.now)) slots.now }
    ensures mask { let p = settings_of problem.now in let n = length (leaves tree.now) in
        IfOk result (λ new. mask_of n new.items
        ≡ kept_by_exchange p (mesh_of tree.now problem.now.cells lists.now) (mask_of n slots.now)) }
    ensures slots { IfOk result (λ new. AreSlots (field_count (settings_of problem.now))
        (length (leaves tree.now)) new.items) }
{
    let mut new = Vec::with_capacity(alloc, slots.len())?;
    for field in 0..slots.len() {
        let old = slots[field].as_slice();
        new.push(keep_called_slots(alloc, calls[field].as_slice(), old)?)?;
    }
    Ok(new)
}

/// The mask after the reactions that leave this mesh: a field is kept from now on where some total of it is above the
/// problem's threshold for that.
pub fn keep_by_reaction(
    alloc: Global,
    problem: &Problem,
    tree: &Tree,
    layout: &Layout,
    lists: &[FieldTotals],
    slots: &[FieldSlots],
) -> Result<Vec<FieldSlots>, NoMemory>
    requires mesh { IsMeshIn (settings_of problem.now) tree.now layout.now lists.now }
    requires slots { AreSlots (field_count (settings_of problem.now)) (length (leaves tree.now)) slots.now }
    ensures mask { let p = settings_of problem.now in let n = length (leaves tree.now) in
        IfOk result (λ new. mask_of n new.items
        ≡ kept_by_reaction p (mesh_of tree.now problem.now.cells lists.now) (mask_of n slots.now)) }
    ensures slots { IfOk result (λ new. AreSlots (field_count (settings_of problem.now))
        (length (leaves tree.now)) new.items) }
{
    let mut new = Vec::with_capacity(alloc, slots.len())?;
    for field in 0..slots.len() {
        let old = slots[field].as_slice();
        let list = lists[field].as_slice();
        new.push(keep_above_slots(alloc, list, problem.alloc_threshold, old)?)?;
    }
    Ok(new)
}

/// The mask after the check of this mesh: a sparse field is freed where no total of it was above the problem's
/// threshold for that at so many checks in a row as the problem says.
pub fn keep_by_check(
    alloc: Global,
    problem: &Problem,
    tree: &Tree,
    layout: &Layout,
    lists: &[FieldTotals],
    slots: &[FieldSlots],
) -> Result<Vec<FieldSlots>, NoMemory>
    requires mesh { IsMeshIn (settings_of problem.now) tree.now layout.now lists.now }
    requires slots { AreSlots (field_count (settings_of problem.now)) (length (leaves tree.now)) slots.now }
    requires fresh { (leaf f : ℕ) → leaf < length (leaves tree.now) → f < field_count (settings_of problem.now)
        → (slot_in slots.now f leaf).idle < problem.now.dealloc_count }
    ensures mask { let p = settings_of problem.now in let n = length (leaves tree.now) in
        IfOk result (λ new. mask_of n new.items
        ≡ kept_by_check p (mesh_of tree.now problem.now.cells lists.now) (mask_of n slots.now)) }
    ensures slots { IfOk result (λ new. AreSlots (field_count (settings_of problem.now))
        (length (leaves tree.now)) new.items) }
{
    let mut new = Vec::with_capacity(alloc, slots.len())?;
    for field in 0..slots.len() {
        let old = slots[field].as_slice();
        let list = lists[field].as_slice();
        new.push(check_field(alloc, problem, field as u32, list, old)?)?;
    }
    Ok(new)
}
