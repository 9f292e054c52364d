//! The buffers with which a mesh state begins.

ghost use Rattle.std.specs.Prelude.{◌≡◌, ◌+◌, ◌-◌, ◌<◌, ◌≤◌, ◌^◌, ℕ, None, Some, IfOk, OnOk, length, replicate, slice_index};
ghost use Rattle.sparse_pool.specs.declared.place.Place.{Place};
ghost use Rattle.alloc_epochs.specs.Shelf.{place_on};
ghost use Rattle.problem_set.specs.SettingsOf.{settings_of};
ghost use Rattle.mesh_rules.specs.Fields.{field_count, is_sparse};
ghost use Rattle.mesh_rules.specs.Sums.{table};
ghost use Rattle.cell_block.specs.State.{entry_in};
ghost use Rattle.cell_block.specs.Partitions.{lists_of};
ghost use Rattle.cell_block.specs.Rules.{opening_entry};
ghost use Rattle.cell_block.specs.Store.{with_come};
ghost use Rattle.cell_block.specs.Whole.{AddsOn, AreOpened, opening_placed, zero_entry};

use crate::store::Store;
use block_layout::Layout;
use field_bufs::FieldBuf;
use mesh_num::NoMemory;
use package_fields::Flag;
use problem_set::Problem;
use sparse_pool::Place;
use std::alloc::Global;

/// Whether blocks may go without a field.
fn is_sparse(problem: &Problem, field: u32) -> bool
    requires { field < field_count (settings_of problem.now) }
    ensures { result ≡ is_sparse (settings_of problem.now) field }
{
    problem.fields.has(field, Flag::Sparse)
}

/// Adds a buffer of zeros.
fn add_zeros(alloc: Global, layout: &Layout, at: Place, store: &mut Store) -> Result<(), NoMemory>
    requires block { at.block < store.old.leaves }
    requires field { at.field < store.old.fields }
    requires absent { entry_in store.old.places at ≡ None }
    requires epochs { (list : ℕ) → slice_index store.old.epochs list < 2 ^ 64 - 1 }
    ensures { OnOk result (store.new ≡ record
        (with_come store.old at (Some (zero_entry layout.now at.block at.field))) { spares = store.new.spares }) }
{
    let list = store.list_of(at.block);
    store.reserve(list, 1)?;
    let buf = FieldBuf::zeros(alloc, layout, at.block, at.field, 0)?;
    store.add(at, buf);
    Ok(())
}

/// Adds buffers of zeros of a field on all blocks.
fn add_field(
    alloc: Global,
    layout: &Layout,
    leaves: u32,
    field: u32,
    store: &mut Store,
) -> Result<(), NoMemory>
    requires leaves { store.old.leaves ≡ leaves }
    requires field { field < store.old.fields }
    requires absent { (block : ℕ) → block < leaves → entry_in store.old.places (place_on block field) ≡ None }
    requires epochs { (list : ℕ) → slice_index store.old.epochs list ≤ 2 ^ 62 }
    ensures { OnOk result (AddsOn layout.now field leaves store.old store.new) }
{
    for block in 0..leaves {
        let _ = store.lists();
        add_zeros(alloc, layout, Place { block, field }, store)?;
    }
    Ok(())
}

/// The same where no block may go without the field.
fn open_field(
    alloc: Global,
    problem: &Problem,
    layout: &Layout,
    leaves: u32,
    field: u32,
    store: &mut Store,
) -> Result<(), NoMemory>
    requires field { field < field_count (settings_of problem.now) }
    requires few { field ≤ 256 }
    requires leaves { leaves ≤ 65536 }
    requires opened { AreOpened (settings_of problem.now) layout.now leaves
        (field_count (settings_of problem.now)) field store.old }
    ensures opened { OnOk result (AreOpened (settings_of problem.now) layout.now leaves
        (field_count (settings_of problem.now)) (field + 1) store.new) }
    ensures size { OnOk result (store.new.size ≡ store.old.size) }
{
    if is_sparse(problem, field) {
        return Ok(());
    }
    add_field(alloc, layout, leaves, field, store)
}

/// The store of so many leaves, in partitions of a size, with the fields that no block may go without, as zeros.
pub fn opening_store(
    alloc: Global,
    problem: &Problem,
    layout: &Layout,
    size: u32,
    leaves: u32,
) -> Result<Store, NoMemory>
    requires some { 1 ≤ size }
    requires most { size ≤ 65536 }
    requires leaves { leaves ≤ 65536 }
    ensures { IfOk result (λ s. s ≡ opening_placed (settings_of problem.now) layout.now size leaves s.spares) }
{
    let count = problem.fields.count();
    let mut store = Store::new(alloc, size, leaves, count)?;
    for field in 0..count {
        open_field(alloc, problem, layout, leaves, field, &mut store)?;
    }
    let _ = store.lists();
    store.restart_epochs();
    Ok(store)
}

/// A counter of 0 for each leaf.
pub fn zero_counters(alloc: Global, leaves: u32) -> Result<Vec<u32>, NoMemory>
    ensures { IfOk result (λ counters. counters.items ≡ replicate leaves 0) }
{
    Ok(vec![in alloc; 0; leaves as usize]?)
}
