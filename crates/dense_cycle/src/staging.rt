//! A stage of a mesh and of what is kept on it.

ghost use Rattle.std.specs.Prelude.{◌≡◌, IfOk, OnOk, length};
ghost use Rattle.problem_set.specs.SettingsOf.{settings_of};
ghost use Rattle.block_tree.specs.Blocks.{leaves};
ghost use Rattle.mesh_rules.specs.Sums.{table};
ghost use Rattle.mesh_rules.specs.Fields.{field_count};
ghost use Rattle.mesh_rules.specs.Mask.{dropped_of};
ghost use Rattle.mesh_rules.specs.Cycle.{held_by, stage_held};
ghost use Rattle.dense_mesh.specs.Meshes.{CanStage, IsMeshIn, mesh_of};
ghost use Rattle.dense_mesh.specs.Masks.{AreSlots, mask_of};
ghost use Rattle.dense_cycle.specs.Fields.{passed_of};
ghost use Rattle.dense_cycle.specs.Flows.{drop_of_stage};
ghost use Rattle.dense_cycle.specs.Held.{IsHeldIn, held_of};
ghost use Rattle.dense_cycle.specs.Work.{FitsWork};

use crate::fields::{DomainFlow, stage_fields};
use crate::state::DenseHeld;
use crate::work::Work;
use block_layout::Layout;
use block_tree::Tree;
use dense_mask::{cut, keep_by_exchange};
use dense_mesh::{FieldSlots, FieldTotals};
use mesh_num::NoMemory;
use package_fields::Items;
use problem_set::Problem;
use std::alloc::Global;

/// A mesh in which all that is not kept was made zero, and what was dropped of each field.
#[derive(Drop)]
pub(crate) struct CutHeld {
    pub held: DenseHeld,
    pub dropped: Vec<u128>,
}

/// Makes zero what is not kept.
pub(crate) fn cut_held(
    alloc: Global,
    problem: &Problem,
    tree: &Tree,
    layout: &Layout,
    lists: Vec<FieldTotals>,
    slots: Vec<FieldSlots>,
) -> Result<CutHeld, NoMemory>
    requires mesh { IsMeshIn (settings_of problem.now) tree.now layout.now lists.items }
    requires slots { AreSlots (field_count (settings_of problem.now)) (length (leaves tree.now)) slots.items }
    ensures held { IfOk result (λ c. held_of tree.now problem.now.cells c.held
        ≡ held_by (settings_of problem.now) (mask_of (length (leaves tree.now)) slots.items)
        (mesh_of tree.now problem.now.cells lists.items)) }
    ensures kept { IfOk result (λ c. IsHeldIn (settings_of problem.now) tree.now layout.now c.held) }
    ensures dropped { IfOk result (λ c. c.dropped.items
        ≡ table (field_count (settings_of problem.now))
        (dropped_of (settings_of problem.now) (mask_of (length (leaves tree.now)) slots.items)
        (mesh_of tree.now problem.now.cells lists.items))) }
{
    let cut = cut(alloc, problem, tree, layout, slots.as_slice(), lists)?;
    Ok(CutHeld {
        held: DenseHeld {
            lists: Items::from_vec(cut.lists),
            slots: Items::from_vec(slots),
        },
        dropped: cut.dropped,
    })
}

/// What a stage makes of a mesh, what passes the faces of the domain by field, and what is dropped.
#[derive(Drop)]
pub(crate) struct StagedHeld {
    pub held: DenseHeld,
    pub passed: Vec<DomainFlow>,
    pub dropped: Vec<u128>,
}

/// A stage: what its exchange calls for is kept, each cell gains and loses, and what is not kept is made zero.
pub(crate) fn stage(
    alloc: Global,
    problem: &Problem,
    tree: &Tree,
    layout: &Layout,
    held: &DenseHeld,
    work: &mut Work,
) -> Result<StagedHeld, NoMemory>
    requires mesh { CanStage (settings_of problem.now) tree.now layout.now held.now.lists }
    requires slots { AreSlots (field_count (settings_of problem.now)) (length (leaves tree.now)) held.now.slots }
    requires work { FitsWork layout.now (length (leaves tree.now)) work.old }
    ensures held { IfOk result (λ s. held_of tree.now problem.now.cells s.held
        ≡ stage_held (settings_of problem.now) (held_of tree.now problem.now.cells held.now)) }
    ensures kept { IfOk result (λ s. IsHeldIn (settings_of problem.now) tree.now layout.now s.held) }
    ensures passed { IfOk result (λ s. s.passed.items
        ≡ table (field_count (settings_of problem.now))
        (passed_of (settings_of problem.now) (mesh_of tree.now problem.now.cells held.now.lists))) }
    ensures dropped { IfOk result (λ s. s.dropped.items
        ≡ table (field_count (settings_of problem.now))
        (drop_of_stage (settings_of problem.now) (held_of tree.now problem.now.cells held.now))) }
    ensures work { OnOk result (FitsWork layout.now (length (leaves tree.now)) work.new) }
{
    let lists = held.lists.as_slice();
    let staged = stage_fields(alloc, problem, tree, layout, lists, work)?;
    let calls = staged.calls.as_slice();
    let slots = keep_by_exchange(alloc, problem, tree, lists, calls, held.slots.as_slice())?;
    let cut = cut_held(alloc, problem, tree, layout, staged.lists, slots)?;
    Ok(StagedHeld {
        held: cut.held,
        passed: staged.passed,
        dropped: cut.dropped,
    })
}
