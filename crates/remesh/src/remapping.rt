//! The mesh state on the next tree.

ghost use Rattle.std.specs.Prelude.{◌≡◌, ◌<◌, IfOk, OnOk, length};
ghost use Rattle.block_tree.specs.Blocks.{leaves};
ghost use Rattle.problem_set.specs.SettingsOf.{settings_of};
ghost use Rattle.cell_block.specs.State.{leaf_count};
ghost use Rattle.remesh.specs.Remaps.{CanRemap, IsFresh, IsRemapOf};
ghost use Rattle.remesh.specs.Leaves.{leaf_with as leaf_of, plain};
ghost use Rattle.remesh.specs.Carries.{AreCarriedTo, CanCarryAll};

use crate::fields::coming_fields;
use crate::leaf::NewLeaf;
use crate::leaf_stores::store_leaf;
use block_layout::Layout;
use block_tree::Tree;
use cell_block::MeshState;
use dense_remesh::{Origin, leaf_origins};
use mesh_num::NoMemory;
use problem_set::Problem;
use std::alloc::Global;

/// The leaf of the next tree with a number.
pub(crate) fn leaf_with<'a>(
    layout: &'a Layout,
    old: &'a MeshState,
    next: &Tree,
    origins: &[Origin],
    number: u32,
) -> NewLeaf<'a>
    requires leaf { number < length (leaves next.now) }
    requires origins { length origins.now ≡ length (leaves next.now) }
    ensures { plain result ≡ leaf_of layout.now old.now next.now origins.now number }
{
    NewLeaf {
        layout,
        old,
        number,
        at: next.leaf_at(number),
        origin: origins[number as usize],
    }
}

/// Fills each leaf with what comes to it.
fn carry_leaves(
    alloc: Global,
    layout: &Layout,
    old: &MeshState,
    origins: &[Origin],
    mesh: &mut MeshState,
) -> Result<(), NoMemory>
    requires { CanCarryAll layout.now old.now origins.now mesh.old }
    ensures { OnOk result (AreCarriedTo layout.now old.now origins.now mesh.old mesh.new (leaf_count mesh.old)) }
{
    for number in 0..mesh.tree().len() {
        let leaf = leaf_with(layout, old, mesh.tree(), origins, number);
        let bufs = coming_fields(alloc, &leaf)?;
        store_leaf(mesh, &leaf, bufs)?;
    }
    Ok(())
}

/// The mesh state on the next tree, on which each leaf differs by at most one level from the old leaves in its place.
///
/// A leaf that stays has what it had, with its idle counts and its tag counter. One whose parent was a leaf has the fields of
/// the parent by shares, one whose children were leaves those of any of them by sums. Stamps and epochs are 0. The old mesh
/// state stays as it was.
pub fn remap_alone(
    alloc: Global,
    problem: &Problem,
    old: &MeshState,
    tree: Tree,
) -> Result<MeshState, NoMemory>
    requires { CanRemap (settings_of problem.now) old.now tree }
    ensures state { IfOk result (IsRemapOf (settings_of problem.now) old.now tree) }
    ensures fresh { IfOk result IsFresh }
{
    let layout = Layout::of(problem);
    let origins = leaf_origins(alloc, old.tree(), &tree)?;
    let mut mesh = MeshState::empty(alloc, problem, tree)?;
    carry_leaves(alloc, &layout, old, origins.as_slice(), &mut mesh)?;
    mesh.restart_epochs();
    let _ = mesh.tree();
    Ok(mesh)
}
