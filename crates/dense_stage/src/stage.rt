//! The stage of a field.

ghost use Rattle.std.specs.Prelude.{◌≡◌, ◌<◌, IfOk, length};
ghost use Rattle.block_tree.specs.Blocks.{leaves};
ghost use Rattle.problem_set.specs.SettingsOf.{settings_of};
ghost use Rattle.mesh_rules.specs.Stage.{inflow_of, outflow_of, staged};
ghost use Rattle.dense_mesh.specs.Ghosts.{AreGhostLists, SeeMesh};
ghost use Rattle.dense_mesh.specs.Meshes.{CanStage, field_list, mesh_of};
ghost use Rattle.dense_stage.specs.Blocks.{FieldMesh, IsSoundMesh, OnLeaves, StaysSmall, block_in, field_on, mesh_in};
ghost use Rattle.dense_stage.specs.Faces.{AreFaceLists};

use crate::corrections::correct;
use crate::domain::domain_flows;
use crate::each_leaf::{is_plain, stage_each};
use crate::face_lists::FaceLists;
use crate::own_fluxes::own_fluxes;
use crate::staging::stage_leaves;
use block_layout::Layout;
use block_tree::Tree;
use cell_lists::{Cells, NoMemory};
use dense_mesh::FieldTotals;
use problem_set::Problem;
use std::alloc::Global;

/// What a stage makes of a field.
#[derive(Drop)]
pub struct Advanced {
    /// The totals after the stage, by leaf.
    pub totals: FieldTotals,
    /// What entered through the faces of the domain, and what left.
    pub inflow: u128,
    pub outflow: u128,
}

/// The passes of a stage over the leaves, on the mesh that the lists say.
fn advance_leaves(
    alloc: Global,
    problem: &Problem,
    tree: &Tree,
    layout: &Layout,
    lists: &[FieldTotals],
    field: u32,
    ghosts: &mut Vec<Cells>,
    faces: &mut FaceLists,
) -> Result<Advanced, NoMemory>
    ghost x: { FieldMesh }
    requires is { x ≡ field_on problem.now lists.now field }
    requires mesh { IsSoundMesh tree.now layout.now x }
    requires shape { tree.now.shape ≡ problem.now.shape }
    requires levels { OnLeaves tree.now (λ _ l. l.level < problem.now.levels) }
    requires field { field < length problem.now.moves }
    requires seen { SeeMesh x.settings (mesh_in tree.now x) layout.now x.field ghosts.old.items }
    requires faces { AreFaceLists layout.now (length (leaves tree.now)) faces.old }
    requires small { OnLeaves tree.now (λ leaf l. StaysSmall (block_in tree.now layout.now x l)) }
    ensures staged { IfOk result (λ advanced. advanced.totals
        ≡ field_list (mesh_in tree.now x) (staged x.settings (mesh_in tree.now x) x.field)) }
    ensures inflow { IfOk result (λ advanced. advanced.inflow ≡ inflow_of x.settings (mesh_in tree.now x) x.field) }
    ensures outflow { IfOk result (λ advanced. advanced.outflow ≡ outflow_of x.settings (mesh_in tree.now x) x.field) }
    ensures ghosts { AreGhostLists layout.now (length (leaves tree.now)) ghosts.new.items }
    ensures faces { AreFaceLists layout.now (length (leaves tree.now)) faces.new }
{
    if is_plain(tree, layout.dims) {
        return stage_each(alloc, problem, tree, layout, field, ghosts, faces);
    }
    own_fluxes(problem, tree, layout, field, ghosts, faces);
    correct(alloc, tree, layout, faces)?;
    let flows = domain_flows(tree, layout, faces);
    let totals = stage_leaves(alloc, tree, layout, ghosts, faces)?;
    Ok(Advanced {
        totals,
        inflow: flows.inflow,
        outflow: flows.outflow,
    })
}

/// Advances a field by a stage on a whole mesh: its lists by field and leaf are `lists`, and `ghosts` has a list of
/// cells with ghosts for each leaf that shows the field. The lists in `ghosts` and `faces` are written over, and serve
/// again.
///
/// NoMemory may come at any time.
pub fn advance(
    alloc: Global,
    problem: &Problem,
    tree: &Tree,
    layout: &Layout,
    lists: &[FieldTotals],
    field: u32,
    ghosts: &mut Vec<Cells>,
    faces: &mut FaceLists,
) -> Result<Advanced, NoMemory>
    requires mesh { CanStage (settings_of problem.now) tree.now layout.now lists.now }
    requires field { field < length problem.now.moves }
    requires seen { SeeMesh (settings_of problem.now)
        (mesh_of tree.now problem.now.cells lists.now) layout.now field ghosts.old.items }
    requires faces { AreFaceLists layout.now (length (leaves tree.now)) faces.old }
    ensures staged { IfOk result (λ advanced. advanced.totals
        ≡ field_list (mesh_of tree.now problem.now.cells lists.now)
        (staged (settings_of problem.now) (mesh_of tree.now problem.now.cells lists.now) field)) }
    ensures inflow { IfOk result (λ advanced. advanced.inflow
        ≡ inflow_of (settings_of problem.now) (mesh_of tree.now problem.now.cells lists.now) field) }
    ensures outflow { IfOk result (λ advanced. advanced.outflow
        ≡ outflow_of (settings_of problem.now) (mesh_of tree.now problem.now.cells lists.now) field) }
    ensures ghosts { AreGhostLists layout.now (length (leaves tree.now)) ghosts.new.items }
    ensures faces { AreFaceLists layout.now (length (leaves tree.now)) faces.new }
{
    advance_leaves(alloc, problem, tree, layout, lists, field, ghosts, faces)
}
