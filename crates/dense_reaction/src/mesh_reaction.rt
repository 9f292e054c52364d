//! What reacts on a whole mesh.

ghost use Rattle.std.specs.Prelude.{◌≡◌, ℕ, List, IfOk, replicate, slice_index};
ghost use Rattle.package_fields.specs.Kernel.{KernelLaws, Reacted};
ghost use Rattle.problem_set.specs.SettingsOf.{settings_of};
ghost use Rattle.mesh_rules.specs.Sums.{table};
ghost use Rattle.mesh_rules.specs.Fields.{field_count};
ghost use Rattle.mesh_rules.specs.Reaction.{before_reactions, made_of, reacted_cell, used_of};
ghost use Rattle.dense_mesh.specs.Meshes.{IsMeshIn, field_lists, mesh_of};
ghost use Rattle.dense_reaction.specs.NoReactions.{no_reaction_laws};

use crate::mesh::{ReactedMesh, react};
use block_layout::Layout;
use block_tree::Tree;
use dense_mesh::FieldTotals;
use mesh_num::NoMemory;
use package_fields::CellKernel;
use problem_set::Problem;
use std::alloc::Global;

/// What reacts in the cells of a mesh. What it leaves of a cell is a function of the cell's totals, and keeps the laws
/// of a kernel.
pub trait MeshReaction {
    ghost fields: { Self → ℕ };

    ghost reacts: { Self → List ℕ → Reacted };

    /// Changes all cells of a mesh, and answers what it made and used of each field on the whole mesh.
    fn react_on(
        &self,
        alloc: Global,
        problem: &Problem,
        tree: &Tree,
        layout: &Layout,
        lists: Vec<FieldTotals>,
    ) -> Result<ReactedMesh, NoMemory>
        requires mesh { IsMeshIn (settings_of problem.now) tree.now layout.now lists.items }
        requires fields { fields self.now ≡ field_count (settings_of problem.now) }
        ensures lists { let n = field_count (settings_of problem.now) in
            let m = mesh_of tree.now problem.now.cells lists.items in
            IfOk result (λ r. r.lists.items ≡ field_lists m n
            (λ f c. slice_index (reacted_cell (reacts self.now) n m c).totals f)) }
        ensures made { let n = field_count (settings_of problem.now) in
            IfOk result (λ r. r.made.items ≡ table n
            (made_of (reacts self.now) n (mesh_of tree.now problem.now.cells lists.items))) }
        ensures used { let n = field_count (settings_of problem.now) in
            IfOk result (λ r. r.used.items ≡ table n
            (used_of (reacts self.now) n (mesh_of tree.now problem.now.cells lists.items))) };

    ghost laws: { (reaction : Self) → KernelLaws (fields reaction) (reacts reaction) };
}

/// A kernel that is applied in each cell.
#[derive(Drop)]
pub struct InCells<C> {
    pub kernel: C,
}

impl<C: CellKernel> MeshReaction for InCells<C> {
    ghost fields = { λ reaction. C.fields reaction.kernel };

    ghost reacts = { λ reaction. C.reacts (C.code reaction.kernel) };

    fn react_on(
        &self,
        alloc: Global,
        problem: &Problem,
        tree: &Tree,
        layout: &Layout,
        lists: Vec<FieldTotals>,
    ) -> Result<ReactedMesh, NoMemory> {
        react(alloc, &self.kernel, problem, tree, layout, lists.as_slice())
    }

    ghost laws = { λ reaction. C.laws reaction.kernel };
}

/// Nothing that reacts, among so many fields: the lists of a mesh are moved on, and no cell is read.
#[derive(Clone, Copy)]
pub struct NoReaction {
    pub fields: u32,
}

/// Nothing of so many fields.
fn nothing(alloc: Global, fields: u32) -> Result<Vec<u128>, NoMemory>
    ensures { IfOk result (λ list. list.items ≡ replicate fields 0) }
{
    let list = vec![in alloc; 0u128; fields as usize]?;
    Ok(list)
}

impl MeshReaction for NoReaction {
    ghost fields = { λ reaction. reaction.fields };

    ghost reacts = { λ _. before_reactions };

    fn react_on(
        &self,
        alloc: Global,
        problem: &Problem,
        tree: &Tree,
        layout: &Layout,
        lists: Vec<FieldTotals>,
    ) -> Result<ReactedMesh, NoMemory> {
        let made = nothing(alloc, self.fields)?;
        let used = nothing(alloc, self.fields)?;
        Ok(ReactedMesh { lists, made, used })
    }

    ghost laws = { λ reaction. no_reaction_laws reaction.fields };
}
