//! The mesh state on the next tree, made in several threads.

ghost use Rattle.std.specs.Prelude.{◌≡◌, ◌<◌, IfOk, OnOk, length};
ghost use Rattle.block_tree.specs.Blocks.{IsBlockTree, leaves};
ghost use Rattle.problem_set.specs.SettingsOf.{settings_of};
ghost use Rattle.cell_block.specs.Rules.{IsLayoutFor};
ghost use Rattle.cell_block.specs.State.{leaf_count};
ghost use Rattle.dense_remesh.specs.Origins.{AreOrigins};
ghost use Rattle.remesh.specs.Fields.{CanCarry};
ghost use Rattle.remesh.specs.Leaves.{leaf_with as leaf_of};
ghost use Rattle.remesh.specs.Remaps.{CanRemap, IsFresh, IsRemapOf};
ghost use Rattle.remesh.specs.Carries.{AreAllOnLeaves, AreBuffersOn, AreCarriedTo, CanCarryAll, CanCarryEach};

use crate::fields::coming_fields;
use crate::leaf_stores::store_leaf;
use crate::remapping::leaf_with;
use block_layout::Layout;
use block_tree::Tree;
use cell_block::MeshState;
use dense_remesh::{Origin, leaf_origins};
use field_bufs::Bufs;
use mesh_num::NoMemory;
use problem_set::Problem;
use rayon::prelude::*;
use std::alloc::Global;
use std::mem;
use std::thread::Threads;

/// The buffers of the leaf with a number.
fn buffers_of(
    alloc: Global,
    layout: &Layout,
    old: &MeshState,
    next: &Tree,
    origins: &[Origin],
    number: u32,
) -> Result<Bufs, NoMemory>
    requires leaf { number < length (leaves next.now) }
    requires origins { length origins.now ≡ length (leaves next.now) }
    requires carry { CanCarry (leaf_of layout.now old.now next.now origins.now number) }
    ensures { IfOk result (AreBuffersOn layout.now old.now next.now origins.now number) }
{
    let leaf = leaf_with(layout, old, next, origins, number);
    coming_fields(alloc, &leaf)
}

/// The buffers of all leaves of the next tree, made in several threads.
fn coming_everywhere(
    rt: &(impl Threads + Sync),
    alloc: Global,
    layout: &Layout,
    old: &MeshState,
    next: &Tree,
    origins: &[Origin],
) -> Result<Vec<Bufs>, NoMemory>
    requires { CanCarryEach layout.now old.now next.now origins.now }
    ensures { IfOk result (λ all. AreAllOnLeaves layout.now old.now next.now origins.now all.items) }
{
    (0..next.len())
        .into_par_iter()
        .with_min_len(1)
        .map(
            |number: u32| -> Result<Bufs, NoMemory>
                requires leaf { number < length (leaves next.now) }
                requires origins { length origins.now ≡ length (leaves next.now) }
                requires carry { CanCarry (leaf_of layout.now old.now next.now origins.now number) }
                ensures { IfOk result (AreBuffersOn layout.entry.now old.entry.now next.entry.now origins.entry.now number) }
            { buffers_of(alloc, layout, old, next, origins, number) },
        )
        .collect::<Result<Vec<Bufs>, NoMemory>>(rt, alloc)?
}

/// Stores all leaves.
fn store_leaves(
    alloc: Global,
    layout: &Layout,
    old: &MeshState,
    origins: &[Origin],
    mut all: Vec<Bufs>,
    mesh: &mut MeshState,
) -> Result<(), NoMemory>
    requires mesh { CanCarryAll layout.now old.now origins.now mesh.old }
    requires bufs { AreAllOnLeaves layout.now old.now mesh.old.tree origins.now all.items }
    ensures { OnOk result (AreCarriedTo layout.now old.now origins.now mesh.old mesh.new (leaf_count mesh.old)) }
{
    for number in 0..mesh.tree().len() {
        let bufs = mem::replace(&mut all[number as usize], Bufs::new(alloc));
        let leaf = leaf_with(layout, old, mesh.tree(), origins, number);
        store_leaf(mesh, &leaf, bufs)?;
    }
    Ok(())
}

/// The mesh state on the next tree, filled with the buffers of its leaves.
fn filled(
    alloc: Global,
    problem: &Problem,
    layout: &Layout,
    old: &MeshState,
    tree: Tree,
    origins: &[Origin],
    all: Vec<Bufs>,
) -> Result<MeshState, NoMemory>
    requires remap { CanRemap (settings_of problem.now) old.now tree }
    requires tree { IsBlockTree tree }
    requires origins { AreOrigins old.now.tree (leaves tree) origins.now }
    requires layout { IsLayoutFor (settings_of problem.now) layout.now }
    requires bufs { AreAllOnLeaves layout.now old.now tree origins.now all.items }
    ensures state { IfOk result (IsRemapOf (settings_of problem.now) old.now tree) }
    ensures fresh { IfOk result IsFresh }
{
    let _ = old.tree();
    let mut mesh = MeshState::empty(alloc, problem, tree)?;
    store_leaves(alloc, layout, old, origins, all, &mut mesh)?;
    mesh.restart_epochs();
    let _ = mesh.tree();
    Ok(mesh)
}

/// The same as [`remap_alone`](crate::remap_alone), with the buffers of the leaves made in several threads.
pub fn remap(
    rt: &(impl Threads + Sync),
    alloc: Global,
    problem: &Problem,
    old: &MeshState,
    tree: Tree,
) -> Result<MeshState, NoMemory>
    requires { CanRemap (settings_of problem.now) old.now tree }
    ensures state { IfOk result (IsRemapOf (settings_of problem.now) old.now tree) }
    ensures fresh { IfOk result IsFresh }
{
    let layout = Layout::of(problem);
    let origins = leaf_origins(alloc, old.tree(), &tree)?;
    let all = coming_everywhere(rt, alloc, &layout, old, &tree, origins.as_slice())?;
    filled(alloc, problem, &layout, old, tree, origins.as_slice(), all)
}
