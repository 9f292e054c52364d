//! All stages of a cycle.

ghost use Rattle.std.specs.Prelude.{◌≡◌, ℕ, ◌+◌, IfOk, OnOk, length};
ghost use Rattle.problem_set.specs.SettingsOf.{settings_of};
ghost use Rattle.block_tree.specs.Blocks.{leaves};
ghost use Rattle.mesh_rules.specs.Fields.{field_count};
ghost use Rattle.mesh_rules.specs.Fit.{IsFit};
ghost use Rattle.mesh_rules.specs.Cycle.{State, staged_to};
ghost use Rattle.dense_mesh.specs.Meshes.{CanStage};
ghost use Rattle.dense_mesh.specs.Masks.{AreSlots};
ghost use Rattle.dense_cycle.specs.Flows.{CanAdd, HasSums};
ghost use Rattle.dense_cycle.specs.Held.{IsHeldIn, held_of, state_of};
ghost use Rattle.dense_cycle.specs.Work.{FitsWork};

use crate::room::Room;
use crate::staging::stage;
use crate::state::{DenseHeld, DenseState};
use crate::sums::{StageSums, add_each, add_passed};
use crate::work::Work;
use block_layout::Layout;
use block_tree::Tree;
use mesh_num::NoMemory;
use problem_set::Problem;
use std::alloc::Global;

/// The mesh after all stages of a cycle, with what passed and what was dropped in them.
#[derive(Drop)]
pub(crate) struct StagedCycle {
    pub held: DenseHeld,
    pub sums: StageSums,
    pub room: Room,
}

/// One more stage, which adds to the sums.
fn next_stage(
    alloc: Global,
    problem: &Problem,
    tree: &Tree,
    layout: &Layout,
    held: &DenseHeld,
    work: &mut Work,
    sums: &mut StageSums,
) -> Result<DenseHeld, NoMemory>
    requires mesh { CanStage (settings_of problem.now) tree.now layout.now held.now.lists }
    requires slots { AreSlots (field_count (settings_of problem.now)) (length (leaves tree.now)) held.now.slots }
    requires work { FitsWork layout.now (length (leaves tree.now)) work.old }
    requires sums { CanAdd (settings_of problem.now) (held_of tree.now problem.now.cells held.now) sums.old }
    ensures held { (s : State) (n : ℕ) → held_of tree.now problem.now.cells held.now
        ≡ staged_to (settings_of problem.now) s n
        → IfOk result (λ next. held_of tree.now problem.now.cells next
        ≡ staged_to (settings_of problem.now) s (n + 1)) }
    ensures sums { (s : State) (n : ℕ) → held_of tree.now problem.now.cells held.now
        ≡ staged_to (settings_of problem.now) s n → HasSums (settings_of problem.now) s n sums.old
        → OnOk result (HasSums (settings_of problem.now) s (n + 1) sums.new) }
    ensures kept { IfOk result (λ next. IsHeldIn (settings_of problem.now) tree.now layout.now next) }
    ensures work { OnOk result (FitsWork layout.now (length (leaves tree.now)) work.new) }
{
    let staged = stage(alloc, problem, tree, layout, held, work)?;
    add_passed(&mut sums.flows, staged.passed.as_slice());
    add_each(&mut sums.drops, staged.dropped.as_slice());
    Ok(staged.held)
}

/// All stages of a cycle.
pub(crate) fn run_stages(
    alloc: Global,
    problem: &Problem,
    tree: &Tree,
    layout: &Layout,
    state: &DenseState,
    room: Room,
) -> Result<StagedCycle, NoMemory>
    requires held { IsHeldIn (settings_of problem.now) tree.now layout.now state.now.held }
    requires fit { IsFit (settings_of problem.now) (state_of tree.now problem.now.cells state.now) }
    ensures held { IfOk result (λ c. held_of tree.now problem.now.cells c.held
        ≡ staged_to (settings_of problem.now) (state_of tree.now problem.now.cells state.now) problem.now.nstages) }
    ensures kept { IfOk result (λ c. IsHeldIn (settings_of problem.now) tree.now layout.now c.held) }
    ensures sums { IfOk result (λ c. HasSums (settings_of problem.now)
        (state_of tree.now problem.now.cells state.now) problem.now.nstages c.sums) }
{
    let mut work = room.refit(alloc, layout, tree.len())?;
    let mut sums = StageSums::zeros(alloc, problem.moves.len())?;
    let mut held = next_stage(
        alloc,
        problem,
        tree,
        layout,
        &state.held,
        &mut work,
        &mut sums,
    )?;
    for stage in 1..problem.nstages {
        held = next_stage(alloc, problem, tree, layout, &held, &mut work, &mut sums)?;
    }
    let room = Room::of(layout, tree.len(), work);
    Ok(StagedCycle { held, sums, room })
}
