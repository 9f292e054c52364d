//! The next cycle of a run.

ghost use Rattle.std.specs.Prelude.{◌≡◌, true, false, IfOk, IfErr, length};
ghost use Rattle.problem_set.specs.Settings.{Settings};
ghost use Rattle.problem_set.specs.SettingsOf.{settings_of};
ghost use Rattle.block_tree.specs.Blocks.{RefusedByCount, is_inner_of, leaves, tree_with};
ghost use Rattle.block_tree.specs.Next.{IsNear};
ghost use Rattle.mesh_rules.specs.Fields.{field_count};
ghost use Rattle.mesh_rules.specs.Fit.{IsFit};
ghost use Rattle.mesh_rules.specs.Remesh.{next_tree as next_tree_of};
ghost use Rattle.mesh_rules.specs.Reaction.{kernel_of as kernel_of_settings};
ghost use Rattle.mesh_rules.specs.Cycle.{State, tags_of};
ghost use Rattle.mesh_rules.specs.Run.{remeshes_at};
ghost use Rattle.dense_cycle.specs.Held.{IsHeldIn, state_of};
ghost use Rattle.dense_mesh.specs.Masks.{AreSlots};
ghost use Rattle.dense_remesh.specs.Lists.{HaveLeafLists};
ghost use Rattle.dense_model.specs.Next.{IsNextCycle, IsSettled, StopsCycle, state_on};

use crate::fault::DenseFault;
use crate::kernel::kernel_of;
use block_layout::Layout;
use block_tree::{Tag, Tree, TreeFault};
use dense_cycle::{DenseHeld, DenseState, Room, Settled, settle};
use dense_reaction::{InCells, NoReaction};
use dense_remesh::{carried_counters, carried_slots, remap};
use mesh_num::NoMemory;
use package_fields::{Flows, Items};
use problem_set::{Mode, Problem};
use std::alloc::Global;
use tree_change::next_tree;

/// What one more cycle comes to: the tree where that changes, the state, the flows and the drops of the cycle.
#[derive(Drop)]
pub(crate) struct Next {
    pub tree: Option<Tree>,
    pub state: DenseState,
    pub flows: Flows,
    pub drops: Items<u128>,
    /// What the stages were made in.
    pub room: Room,
}

/// Whether the tree may change after a cycle.
fn remeshes(problem: &Problem, cycle: u32) -> bool
    ensures { result ≡ remeshes_at (settings_of problem.now) cycle }
{
    match problem.mode {
        Mode::Plain | Mode::Fixed => false,
        Mode::Adaptive => cycle % problem.refine_every == 0,
    }
}

/// A next tree that is refused stops the run at its cycle.
fn stops_at(fault: TreeFault, cycle: u32) -> DenseFault
    ensures { (p : Settings) (s : State) → remeshes_at p cycle ≡ true
        → RefusedByCount s.mesh.shape (next_tree_of p s.mesh (tags_of p (kernel_of_settings p) s)) fault
        → StopsCycle p s cycle result }
{
    match fault {
        TreeFault::NoMemory => DenseFault::NoMemory,
        TreeFault::TooManyAtStart => DenseFault::NoMemory,
        TreeFault::TooManyBlocks { leaves } => DenseFault::TooManyBlocks { cycle, leaves },
    }
}

/// The tree after a cycle, by the tags of its leaves.
fn tree_by(
    alloc: Global,
    problem: &Problem,
    tree: &Tree,
    before: &DenseState,
    tags: &[Tag],
    cycle: u32,
) -> Result<Tree, DenseFault>
    requires fit { IsFit (settings_of problem.now) (state_of tree.now problem.now.cells before.now) }
    requires tags { tags.now ≡ tags_of (settings_of problem.now) (kernel_of_settings (settings_of problem.now))
        (state_of tree.now problem.now.cells before.now) }
    requires due { remeshes_at (settings_of problem.now) cycle ≡ true }
    ensures next { IfOk result (λ next. next
        ≡ tree_with tree.now.shape (next_tree_of (settings_of problem.now)
        (state_of tree.now problem.now.cells before.now).mesh tags.now)) }
    ensures near { IfOk result (λ next. IsNear problem.now.shape (is_inner_of tree.now) (is_inner_of next)) }
    ensures fault { IfErr result (StopsCycle (settings_of problem.now)
        (state_of tree.now problem.now.cells before.now) cycle) }
{
    match next_tree(alloc, tree, tags) {
        Ok(next) => Ok(next),
        Err(fault) => Err(stops_at(fault, cycle)),
    }
}

/// A state on the next tree.
fn carry(
    alloc: Global,
    problem: &Problem,
    tree: &Tree,
    next: &Tree,
    layout: &Layout,
    state: &DenseState,
) -> Result<DenseState, NoMemory>
    requires held { IsHeldIn (settings_of problem.now) tree.now layout.now state.now.held }
    requires shape { next.now.shape ≡ problem.now.shape }
    requires near { IsNear problem.now.shape (is_inner_of tree.now) (is_inner_of next.now) }
    ensures state { IfOk result (λ new. state_of next.now problem.now.cells new
        ≡ state_on (settings_of problem.now) (state_of tree.now problem.now.cells state.now) next.now) }
    ensures lists { IfOk result (λ new. HaveLeafLists (field_count (settings_of problem.now))
        (leaves next.now) new.held.lists) }
    ensures slots { IfOk result (λ new. AreSlots (field_count (settings_of problem.now))
        (length (leaves next.now)) new.held.slots) }
{
    let lists = remap(
        alloc,
        problem,
        tree,
        next,
        layout,
        state.held.lists.as_slice(),
    )?;
    let slots = carried_slots(alloc, problem, tree, next, state.held.slots.as_slice())?;
    let counters = carried_counters(alloc, tree, next, state.counters.as_slice())?;
    Ok(DenseState {
        held: DenseHeld {
            lists: Items::from_vec(lists),
            slots: Items::from_vec(slots),
        },
        counters: Items::from_vec(counters),
    })
}

/// The end of a cycle after which the tree may change.
fn end_on_tree(
    alloc: Global,
    problem: &Problem,
    tree: &Tree,
    layout: &Layout,
    before: &DenseState,
    settled: Settled,
    cycle: u32,
) -> Result<Next, DenseFault>
    requires fit { IsFit (settings_of problem.now) (state_of tree.now problem.now.cells before.now) }
    requires settled { IsSettled (settings_of problem.now) tree.now layout.now before.now settled }
    requires due { remeshes_at (settings_of problem.now) cycle ≡ true }
    ensures next { IfOk result (IsNextCycle (settings_of problem.now) tree.now layout.now before.now cycle) }
    ensures fault { IfErr result (StopsCycle (settings_of problem.now)
        (state_of tree.now problem.now.cells before.now) cycle) }
{
    let next = tree_by(alloc, problem, tree, before, settled.tags.as_slice(), cycle)?;
    let _ = next.len();
    let state = carry(alloc, problem, tree, &next, layout, &settled.state)?;
    Ok(Next {
        tree: Some(next),
        state,
        flows: settled.flows,
        drops: settled.drops,
        room: settled.room,
    })
}

/// A cycle on its tree, by the reactions of the problem.
fn settle_problem(
    alloc: Global,
    problem: &Problem,
    tree: &Tree,
    layout: &Layout,
    before: &DenseState,
    room: Room,
) -> Result<Settled, NoMemory>
    requires held { IsHeldIn (settings_of problem.now) tree.now layout.now before.now.held }
    requires fit { IsFit (settings_of problem.now) (state_of tree.now problem.now.cells before.now) }
    ensures { IfOk result (IsSettled (settings_of problem.now) tree.now layout.now before.now) }
{
    if problem.reactions.is_empty() {
        let none = NoReaction {
            fields: problem.moves.len() as u32,
        };
        let settled = settle(alloc, &none, problem, tree, layout, before, room)?;
        return Ok(settled);
    }
    let kernel = kernel_of(alloc, problem)?;
    let reactions = InCells { kernel };
    let settled = settle(alloc, &reactions, problem, tree, layout, before, room)?;
    Ok(settled)
}

/// The next cycle of a run, by its number: on the next tree where that is due, or refused where it has too many
/// leaves. Nothing of what stood before is changed.
pub(crate) fn next_cycle(
    alloc: Global,
    problem: &Problem,
    tree: &Tree,
    layout: &Layout,
    before: &DenseState,
    room: Room,
    cycle: u32,
) -> Result<Next, DenseFault>
    requires held { IsHeldIn (settings_of problem.now) tree.now layout.now before.now.held }
    requires fit { IsFit (settings_of problem.now) (state_of tree.now problem.now.cells before.now) }
    ensures next { IfOk result (IsNextCycle (settings_of problem.now) tree.now layout.now before.now cycle) }
    ensures fault { IfErr result (StopsCycle (settings_of problem.now)
        (state_of tree.now problem.now.cells before.now) cycle) }
{
    let settled = settle_problem(alloc, problem, tree, layout, before, room)?;
    if remeshes(problem, cycle) {
        return end_on_tree(alloc, problem, tree, layout, before, settled, cycle);
    }
    Ok(Next {
        tree: None,
        state: settled.state,
        flows: settled.flows,
        drops: settled.drops,
        room: settled.room,
    })
}
