//! A mesh state and its kept places as a cycle begins.

ghost use Rattle.std.specs.Prelude.{◌≡◌, ◌<◌, ◌==◌, ◌&&◌, ◌||◌, IfOk, IsSome, OnOk};
ghost use Rattle.sparse_pool.specs.declared.place.Place.{Place};
ghost use Rattle.block_layout.specs.declared.layout.Layout.{Layout};
ghost use Rattle.cell_block.specs.State.{HasLayout, buffer_at, is_allocated, leaf_count};
ghost use Rattle.cell_block.specs.Rules.{IsWhole};
ghost use Rattle.cycle_stores.specs.Stores.{IsShelf, IsShelfFor, is_kept};
ghost use Rattle.cycle_stores.specs.Openings.{IsFreshPlace, IsFreshState, OpensBlock};

use crate::fresh::fresh;
use crate::keeping::keep_place;
use alloc_epochs::Shelf;
use cell_block::MeshState;
use mesh_num::NoMemory;
use sparse_pool::Place;
use std::alloc::Global;

/// Puts a fresh buffer in the place of the one that is there.
fn open_place(alloc: Global, state: &mut MeshState, at: Place) -> Result<(), NoMemory>
    requires { IsSome (buffer_at state.old at) }
    ensures { OnOk result (IsFreshPlace state.old state.new at) }
{
    let was = state.take_out(at);
    let buf = fresh(alloc, state.layout(), &was)?;
    state.put_back(buf);
    Ok(())
}

/// The same on a block.
fn open_block(alloc: Global, state: &mut MeshState, block: u32) -> Result<(), NoMemory>
    requires block { block < leaf_count state.old }
    requires whole { IsWhole state.old }
    ensures { OnOk result (OpensBlock state.old state.new block) }
{
    let _ = state.tree();
    let mut from = 0;
    while let Some(field) = state.next_field(block, from) {
        open_place(alloc, state, Place { block, field })?;
        from = field + 1;
    }
    Ok(())
}

/// The same on all blocks; all epochs are 0 then.
pub fn open_state(alloc: Global, state: &mut MeshState) -> Result<(), NoMemory>
    requires { IsWhole state.old }
    ensures { OnOk result (IsFreshState state.old state.new) }
{
    let leaves = state.tree().len();
    for block in 0..leaves {
        open_block(alloc, state, block)?;
    }
    state.restart_epochs();
    Ok(())
}

/// Keeps the places of a block that are allocated.
fn keep_block(state: &MeshState, kept: &mut Shelf, block: u32) -> Result<(), NoMemory>
    requires block { block < leaf_count state.now }
    requires shelf { IsShelfFor state.now kept.old }
    ensures shelf { OnOk result (IsShelfFor state.now kept.new) }
    ensures kept { OnOk result ((at : Place) → is_kept kept.new at
        ≡ (is_kept kept.old at || (at.block == block && is_allocated state.now at))) }
{
    let _ = state.tree();
    let mut from = 0;
    while let Some(field) = state.next_field(block, from) {
        kept.reserve(1)?;
        keep_place(kept, Place { block, field });
        from = field + 1;
    }
    Ok(())
}

/// The allocated places of a mesh state.
pub fn shelf_of(alloc: Global, state: &MeshState) -> Result<Shelf, NoMemory>
    ensures shelf { IfOk result (IsShelfFor state.now) }
    ensures kept { IfOk result (λ kept. (at : Place) → is_kept kept at ≡ is_allocated state.now at) }
{
    let leaves = state.tree().len();
    let mut kept = Shelf::new(alloc, 0, leaves, state.fields())?;
    for block in 0..leaves {
        keep_block(state, &mut kept, block)?;
    }
    Ok(kept)
}
