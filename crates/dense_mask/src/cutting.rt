//! What does not stay is made zero.

ghost use Rattle.std.specs.Prelude.{◌≡◌, ◌<◌, ◌^◌, ℕ, [], cond, IfOk, length, sum};
ghost use Rattle.std.specs.List.{slice_index_or};
ghost use Rattle.block_tree.specs.Blocks.{leaves};
ghost use Rattle.problem_set.specs.SettingsOf.{settings_of};
ghost use Rattle.mesh_rules.specs.Sums.{table};
ghost use Rattle.mesh_rules.specs.Fields.{field_count};
ghost use Rattle.mesh_rules.specs.Mesh.{block_of, stored};
ghost use Rattle.mesh_rules.specs.Mask.{dropped_of, stays};
ghost use Rattle.dense_mesh.specs.Meshes.{IsMeshIn, field_lists, mesh_of};
ghost use Rattle.dense_mesh.specs.Masks.{AreSlots, mask_of};
ghost use Rattle.dense_mask.specs.SlotSteps.{slot_on};
ghost use Rattle.dense_mask.specs.Cuts.{AreCut, dropped_to, left_of, stays_on};

use crate::fields::is_sparse;
use crate::totals::block_total;
use block_layout::Layout;
use block_tree::Tree;
use cell_lists::Cells;
use dense_mesh::{FieldSlots, FieldTotals, Slot};
use mesh_num::NoMemory;
use problem_set::Problem;
use std::alloc::Global;
use std::mem;

/// What a mask leaves of a mesh.
#[derive(Drop)]
pub struct CutMesh {
    /// The totals, by field, leaf and cell.
    pub lists: Vec<FieldTotals>,
    /// What was dropped of each field.
    pub dropped: Vec<u128>,
}

/// Makes the totals of a block zero where the field is not kept, and answers how much was dropped.
fn cut_block(slot: Slot, cells: &mut Cells) -> u64
    requires { sum cells.old < 2 ^ 64 }
    ensures cells { cells.new ≡ left_of slot.kept cells.old }
    ensures dropped { result ≡ cond slot.kept 0 (sum cells.old) }
{
    if slot.kept {
        return 0;
    }
    let dropped = block_total(cells.as_slice());
    cells.as_mut_slice().fill(0);
    dropped
}

/// The same for all blocks of a sparse field.
fn cut_blocks(slots: &[Slot], blocks: &mut Vec<Cells>) -> u128
    requires leaves { length slots.now ≡ length blocks.old.items }
    requires small { (leaf : ℕ) → sum (slice_index_or blocks.old.items leaf []) < 2 ^ 64 }
    ensures blocks { AreCut (λ leaf. (slot_on slots.now leaf).kept) blocks.old.items blocks.new.items }
    ensures dropped { result ≡ dropped_to (λ leaf. (slot_on slots.now leaf).kept) blocks.old.items
        (length blocks.old.items) }
{
    let mut dropped = 0;
    for leaf in 0..slots.len() {
        dropped += u128::from(cut_block(slots[leaf], &mut blocks[leaf]));
    }
    dropped
}

/// The same for a field, of which all stays where it is not sparse.
fn cut_field(
    alloc: Global,
    problem: &Problem,
    field: u32,
    slots: &[Slot],
    list: &mut FieldTotals,
) -> u128
    requires field { field < field_count (settings_of problem.now) }
    requires leaves { length slots.now ≡ length list.old }
    requires small { (leaf : ℕ) → sum (slice_index_or list.old leaf []) < 2 ^ 64 }
    ensures list { AreCut (stays_on (settings_of problem.now) field slots.now) list.old list.new }
    ensures dropped { result ≡ dropped_to (stays_on (settings_of problem.now) field slots.now) list.old
        (length list.old) }
{
    if !is_sparse(problem, field) {
        return 0;
    }
    let mut blocks = mem::replace(list, FieldTotals::new(alloc)).into_vec();
    let dropped = cut_blocks(slots, &mut blocks);
    *list = FieldTotals::from_vec(blocks);
    dropped
}

/// Makes zero what does not stay of a mesh: a sparse field on each leaf where its slot says that it is not kept.
/// Memory is asked for before anything is changed.
pub fn cut(
    alloc: Global,
    problem: &Problem,
    tree: &Tree,
    layout: &Layout,
    slots: &[FieldSlots],
    lists: Vec<FieldTotals>,
) -> Result<CutMesh, NoMemory>
    requires mesh { IsMeshIn (settings_of problem.now) tree.now layout.now lists.items }
    requires slots { AreSlots (field_count (settings_of problem.now)) (length (leaves tree.now)) slots.now }
    ensures lists { let p = settings_of problem.now in let m = mesh_of tree.now problem.now.cells lists.items in
        let mask = mask_of (length (leaves tree.now)) slots.now in
        IfOk result (λ r. r.lists.items ≡ field_lists m (field_count p)
        (λ f c. cond (stays p m mask f (block_of m c)) (stored m f c) 0)) }
    ensures dropped { let p = settings_of problem.now in let m = mesh_of tree.now problem.now.cells lists.items in
        let mask = mask_of (length (leaves tree.now)) slots.now in
        IfOk result (λ r. r.dropped.items ≡ table (field_count p) (dropped_of p mask m)) }
{
    let mut dropped = vec![in alloc; 0u128; lists.len()]?;
    let mut lists = lists;
    for field in 0..slots.len() {
        let kept = slots[field].as_slice();
        dropped[field] = cut_field(alloc, problem, field as u32, kept, &mut lists[field]);
    }
    Ok(CutMesh { lists, dropped })
}
