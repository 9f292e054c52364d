//! A stage of every field.

ghost use Rattle.std.specs.Prelude.{◌≡◌, ℕ, ◌+◌, ◌<◌, IfOk, OnOk, length, map};
ghost use Rattle.problem_set.specs.Settings.{Settings};
ghost use Rattle.problem_set.specs.SettingsOf.{settings_of};
ghost use Rattle.block_tree.specs.Blocks.{leaves};
ghost use Rattle.mesh_rules.specs.Fields.{field_count};
ghost use Rattle.mesh_rules.specs.Mask.{exchange_calls};
ghost use Rattle.mesh_rules.specs.Mesh.{Mesh};
ghost use Rattle.mesh_rules.specs.Stage.{inflow_of, outflow_of, staged};
ghost use Rattle.dense_mesh.specs.Meshes.{CanStage, field_list, mesh_of};
ghost use Rattle.dense_cycle.specs.Fields.{HasFields};
ghost use Rattle.dense_cycle.specs.Work.{FitsWork};

use crate::work::Work;
use block_layout::Layout;
use block_tree::Tree;
use dense_exchange::exchange;
use dense_mesh::FieldTotals;
use dense_stage::{Advanced, advance};
use mesh_num::NoMemory;
use package_fields::Items;
use problem_set::Problem;
use std::alloc::Global;

/// What passes the faces of the domain of a field in a stage.
#[derive(Clone, Copy, Debug, PartialEq, Eq)]
pub(crate) struct DomainFlow {
    pub inflow: u128,
    pub outflow: u128,
}

/// What a stage makes of some fields.
#[derive(Drop)]
pub(crate) struct StagedFields {
    pub lists: Vec<FieldTotals>,
    /// Whether the exchange calls for the field, leaf by leaf.
    pub calls: Vec<Items<bool>>,
    pub passed: Vec<DomainFlow>,
}

impl StagedFields {
    /// None yet.
    fn empty(alloc: Global) -> StagedFields
        ensures { (p : Settings) (m : Mesh) → HasFields p m 0 result }
    {
        StagedFields {
            lists: Vec::new(alloc),
            calls: Vec::new(alloc),
            passed: Vec::new(alloc),
        }
    }

    /// Adds what a stage makes of the next field.
    fn push(&mut self, calls: Items<bool>, advanced: Advanced) -> Result<(), NoMemory>
        ensures { (p : Settings) (m : Mesh) (n : ℕ) → HasFields p m n self.old
            → calls ≡ map (exchange_calls p m n) m.leaves → advanced.totals ≡ field_list m (staged p m n)
            → advanced.inflow ≡ inflow_of p m n → advanced.outflow ≡ outflow_of p m n
            → OnOk result (HasFields p m (n + 1) self.new) }
    {
        let passed = DomainFlow {
            inflow: advanced.inflow,
            outflow: advanced.outflow,
        };
        self.lists.push(advanced.totals)?;
        self.calls.push(calls)?;
        self.passed.push(passed)?;
        Ok(())
    }
}

/// A stage of one more field.
fn push_field(
    alloc: Global,
    problem: &Problem,
    tree: &Tree,
    layout: &Layout,
    lists: &[FieldTotals],
    field: u32,
    work: &mut Work,
    into: &mut StagedFields,
) -> Result<(), NoMemory>
    requires mesh { CanStage (settings_of problem.now) tree.now layout.now lists.now }
    requires field { field < length problem.now.moves }
    requires work { FitsWork layout.now (length (leaves tree.now)) work.old }
    requires fields { HasFields (settings_of problem.now)
        (mesh_of tree.now problem.now.cells lists.now) field into.old }
    ensures work { OnOk result (FitsWork layout.now (length (leaves tree.now)) work.new) }
    ensures fields { OnOk result (HasFields (settings_of problem.now) (mesh_of tree.now problem.now.cells lists.now)
        (field + 1) into.new) }
{
    let calls = exchange(alloc, problem, tree, layout, lists, field, &mut work.ghosts)?;
    let advanced = advance(
        alloc,
        problem,
        tree,
        layout,
        lists,
        field,
        &mut work.ghosts,
        &mut work.faces,
    )?;
    into.push(calls, advanced)
}

/// A stage of all fields, whose lists are made anew.
pub(crate) fn stage_fields(
    alloc: Global,
    problem: &Problem,
    tree: &Tree,
    layout: &Layout,
    lists: &[FieldTotals],
    work: &mut Work,
) -> Result<StagedFields, NoMemory>
    requires mesh { CanStage (settings_of problem.now) tree.now layout.now lists.now }
    requires work { FitsWork layout.now (length (leaves tree.now)) work.old }
    ensures work { OnOk result (FitsWork layout.now (length (leaves tree.now)) work.new) }
    ensures fields { IfOk result (HasFields (settings_of problem.now) (mesh_of tree.now problem.now.cells lists.now)
        (field_count (settings_of problem.now))) }
{
    let mut staged = StagedFields::empty(alloc);
    for field in 0..problem.moves.len() as u32 {
        push_field(
            alloc,
            problem,
            tree,
            layout,
            lists,
            field,
            work,
            &mut staged,
        )?;
    }
    Ok(staged)
}
