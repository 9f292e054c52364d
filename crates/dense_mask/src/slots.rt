//! The mask at the start, and on how many blocks a field is kept.

ghost use Rattle.std.specs.Prelude.{◌≡◌, ◌<◌, ℕ, [], ◌||◌, not, IfOk, count_by, length};
ghost use Rattle.std.specs.List.{slice_index_or};
ghost use Rattle.block_tree.specs.Blocks.{leaves};
ghost use Rattle.problem_set.specs.SettingsOf.{settings_of};
ghost use Rattle.sparse_pool.specs.Idle.{idle};
ghost use Rattle.mesh_rules.specs.Fields.{field_count, is_sparse as is_sparse_field};
ghost use Rattle.mesh_rules.specs.Mask.{absent, blocks_with, called, kept_at_start};
ghost use Rattle.dense_mesh.specs.Meshes.{IsMeshIn, mesh_of};
ghost use Rattle.dense_mesh.specs.Masks.{AreSlots, mask_of, slot_of};
ghost use Rattle.dense_mask.specs.SlotSteps.{AreSlotsBy};

use crate::fields::is_sparse;
use block_layout::Layout;
use block_tree::Tree;
use cell_lists::Cells;
use dense_mesh::{FieldSlots, FieldTotals, Slot};
use mesh_num::NoMemory;
use problem_set::Problem;
use sparse_pool::is_idle;
use std::alloc::Global;

/// A field's slot at the start, on a leaf with these totals.
fn first_slot(problem: &Problem, field: u32, cells: &[u64]) -> Slot
    requires { field < field_count (settings_of problem.now) }
    ensures { slot_of result ≡ called absent
        (not (is_sparse_field (settings_of problem.now) field) || not (idle cells.now 0)) }
{
    Slot {
        kept: !is_sparse(problem, field) || !is_idle(cells, 0),
        idle: 0,
    }
}

/// A field's slots at the start.
fn first_slots(
    alloc: Global,
    problem: &Problem,
    field: u32,
    list: &[Cells],
) -> Result<FieldSlots, NoMemory>
    requires { field < field_count (settings_of problem.now) }
    ensures { IfOk result (λ slots. AreSlotsBy (length list.now)
        (λ leaf. called absent (not (is_sparse_field (settings_of problem.now) field) || not
        (idle (slice_index_or list.now leaf []) 0))) slots) }
{
    let mut slots = Vec::with_capacity(alloc, list.len())?;
    for cells in list {
        slots.push(first_slot(problem, field, cells.as_slice()))?;
    }
    Ok(FieldSlots::from_vec(slots))
}

/// The mask of the mesh at the start: a sparse field is kept on the leaves where it is not all zero, and every other
/// field on each leaf.
pub fn kept_at_start(
    alloc: Global,
    problem: &Problem,
    tree: &Tree,
    layout: &Layout,
    lists: &[FieldTotals],
) -> Result<Vec<FieldSlots>, NoMemory>
    requires { IsMeshIn (settings_of problem.now) tree.now layout.now lists.now }
    ensures mask { let p = settings_of problem.now in
        IfOk result (λ slots. mask_of (length (leaves tree.now)) slots.items
        ≡ kept_at_start p (mesh_of tree.now problem.now.cells lists.now)) }
    ensures slots { IfOk result (λ slots. AreSlots (field_count (settings_of problem.now))
        (length (leaves tree.now)) slots.items) }
{
    let mut slots = Vec::with_capacity(alloc, lists.len())?;
    for field in 0..lists.len() {
        let list = lists[field].as_slice();
        slots.push(first_slots(alloc, problem, field as u32, list)?)?;
    }
    Ok(slots)
}

/// How many slots are kept.
fn count_kept(slots: &[Slot]) -> usize
    ensures { result ≡ count_by (λ slot. slot.kept) slots.now }
{
    slots.iter().filter(|slot| slot.kept).count()
}

/// On how many blocks a field is kept.
pub fn blocks_with(slots: &[FieldSlots], field: u32) -> u64
    requires { field < length slots.now }
    ensures { (fields leaves : ℕ) → AreSlots fields leaves slots.now
        → result ≡ blocks_with (mask_of leaves slots.now) field }
{
    count_kept(slots[field as usize].as_slice()) as u64
}
