//! A kernel in all cells of a mesh.

ghost use Rattle.std.specs.Prelude.{◌≡◌, [], IfOk, OnOk, map, length, replicate, slice_index};
ghost use Rattle.package_fields.specs.Flow.{no_flow};
ghost use Rattle.problem_set.specs.SettingsOf.{settings_of};
ghost use Rattle.mesh_rules.specs.Sums.{table};
ghost use Rattle.mesh_rules.specs.Fields.{field_count};
ghost use Rattle.mesh_rules.specs.Reaction.{made_of, reacted_cell, used_of};
ghost use Rattle.dense_mesh.specs.Meshes.{IsMeshIn, field_lists, mesh_of};
ghost use Rattle.dense_reaction.specs.Flows.{HaveFlowed};

use crate::block::react_leaf;
use block_layout::Layout;
use block_tree::Tree;
use dense_mesh::FieldTotals;
use mesh_num::NoMemory;
use package_fields::{CellKernel, Flow};
use problem_set::Problem;
use std::alloc::Global;

/// What a kernel makes of a mesh.
#[derive(Drop)]
pub struct ReactedMesh {
    /// The totals, by field, leaf and cell.
    pub lists: Vec<FieldTotals>,
    /// What was made of each field.
    pub made: Vec<u128>,
    /// What was used of each field.
    pub used: Vec<u128>,
}

/// Nothing made or used, of each field.
fn no_flows(alloc: Global, fields: usize) -> Result<Vec<Flow>, NoMemory>
    ensures { IfOk result (λ flows. flows.items ≡ replicate fields no_flow) }
{
    let none = Flow {
        inflow: 0,
        outflow: 0,
        made: 0,
        used: 0,
    };
    Ok(vec![in alloc; none; fields]?)
}

/// An empty list for each field, with room for so many leaves.
fn empty_lists(alloc: Global, fields: usize, leaves: usize) -> Result<Vec<FieldTotals>, NoMemory>
    ensures { IfOk result (λ lists. lists.items ≡ replicate fields []) }
{
    let mut lists = Vec::with_capacity(alloc, fields)?;
    for _ in 0..fields {
        lists.push(FieldTotals::from_vec(Vec::with_capacity(alloc, leaves)?))?;
    }
    Ok(lists)
}

/// What was made of each field.
fn made_by(alloc: Global, flows: &[Flow]) -> Result<Vec<u128>, NoMemory>
    ensures { IfOk result (λ made. made.items ≡ map (λ flow. flow.made) flows.now) }
{
    Ok(flows.iter().map(|flow| flow.made).collect(alloc)?)
}

/// What was used of each field.
fn used_by(alloc: Global, flows: &[Flow]) -> Result<Vec<u128>, NoMemory>
    ensures { IfOk result (λ used. used.items ≡ map (λ flow. flow.used) flows.now) }
{
    Ok(flows.iter().map(|flow| flow.used).collect(alloc)?)
}

/// Applies a kernel in each cell of a mesh, leaf by leaf. The list `cell` serves to hold the totals of a cell.
fn react_leaves<C: CellKernel>(
    alloc: Global,
    kernel: &C,
    problem: &Problem,
    tree: &Tree,
    layout: &Layout,
    lists: &[FieldTotals],
    cell: &mut [u64],
    flows: &mut [Flow],
) -> Result<Vec<FieldTotals>, NoMemory>
    requires mesh { IsMeshIn (settings_of problem.now) tree.now layout.now lists.now }
    requires fields { C.fields kernel.now ≡ field_count (settings_of problem.now) }
    requires cell { length cell.old ≡ length lists.now }
    requires flows { flows.old ≡ replicate (length lists.now) no_flow }
    ensures lists { let n = field_count (settings_of problem.now) in
        let m = mesh_of tree.now problem.now.cells lists.now in
        IfOk result (λ lists. lists.items ≡ field_lists m n
        (λ f c. slice_index (reacted_cell (C.reacts (C.code kernel.now)) n m c).totals f)) }
    ensures flows { OnOk result (HaveFlowed (C.reacts (C.code kernel.now)) (field_count (settings_of problem.now))
        (mesh_of tree.now problem.now.cells lists.now) flows.new) }
{
    let size = layout.interior_len();
    let leaves = tree.len() as usize;
    let mut into = empty_lists(alloc, lists.len(), leaves)?;
    for leaf in 0..leaves {
        react_leaf(alloc, kernel, lists, leaf, size, cell, flows, &mut into)?;
    }
    Ok(into)
}

/// Applies a kernel in each cell of a mesh, which stays as it is, and answers the totals that it leaves, and what it
/// made and used of each field on the whole mesh.
pub fn react<C: CellKernel>(
    alloc: Global,
    kernel: &C,
    problem: &Problem,
    tree: &Tree,
    layout: &Layout,
    lists: &[FieldTotals],
) -> Result<ReactedMesh, NoMemory>
    requires mesh { IsMeshIn (settings_of problem.now) tree.now layout.now lists.now }
    requires fields { C.fields kernel.now ≡ field_count (settings_of problem.now) }
    ensures lists { let n = field_count (settings_of problem.now) in
        let m = mesh_of tree.now problem.now.cells lists.now in
        IfOk result (λ r. r.lists.items ≡ field_lists m n
        (λ f c. slice_index (reacted_cell (C.reacts (C.code kernel.now)) n m c).totals f)) }
    ensures made { let n = field_count (settings_of problem.now) in
        IfOk result (λ r. r.made.items ≡ table n
        (made_of (C.reacts (C.code kernel.now)) n (mesh_of tree.now problem.now.cells lists.now))) }
    ensures used { let n = field_count (settings_of problem.now) in
        IfOk result (λ r. r.used.items ≡ table n
        (used_of (C.reacts (C.code kernel.now)) n (mesh_of tree.now problem.now.cells lists.now))) }
{
    let mut cell = vec![in alloc; 0u64; lists.len()]?;
    let mut gained = no_flows(alloc, lists.len())?;
    let cell = cell.as_mut_slice();
    let flows = gained.as_mut_slice();
    let lists = react_leaves(alloc, kernel, problem, tree, layout, lists, cell, flows)?;
    let made = made_by(alloc, flows)?;
    let used = used_by(alloc, flows)?;
    Ok(ReactedMesh { lists, made, used })
}
