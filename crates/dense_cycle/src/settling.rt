//! A cycle on its tree.

ghost use Rattle.std.specs.Prelude.{◌≡◌, IfOk};
ghost use Rattle.problem_set.specs.SettingsOf.{settings_of};
ghost use Rattle.mesh_rules.specs.Sums.{table};
ghost use Rattle.mesh_rules.specs.Fields.{field_count};
ghost use Rattle.mesh_rules.specs.Fit.{IsFit};
ghost use Rattle.mesh_rules.specs.Cycle.{drop_of, flow_of, reacted_to, settled, tags_of};
ghost use Rattle.dense_cycle.specs.Flows.{HasReacted};
ghost use Rattle.dense_cycle.specs.Held.{IsHeldIn, held_of, state_of};

use crate::check::check_held;
use crate::reaction::react_held;
use crate::room::Room;
use crate::stages::{StagedCycle, run_stages};
use crate::state::{DenseHeld, DenseState};
use crate::sums::{StageSums, add_each, set_reacted};
use block_layout::Layout;
use block_tree::{Tag, Tree};
use dense_reaction::MeshReaction;
use dense_tags::tags;
use mesh_num::NoMemory;
use package_fields::{Flows, Items};
use problem_set::Problem;
use std::alloc::Global;

/// What a cycle comes to on its tree.
#[derive(Drop)]
pub struct Settled {
    /// The state after the check.
    pub state: DenseState,
    /// The tags of the leaves.
    pub tags: Vec<Tag>,
    /// What passed the faces of the domain, and what reactions made and used, by field.
    pub flows: Flows,
    /// What was dropped, by field.
    pub drops: Items<u128>,
    /// What the stages were made in, for the next cycle.
    pub room: Room,
}

/// The mesh after the stages and the reaction, with what flowed and what was dropped.
#[derive(Drop)]
pub(crate) struct ReactedCycle {
    pub held: DenseHeld,
    pub sums: StageSums,
    pub room: Room,
}

/// The stages and the reaction of a cycle.
fn react_cycle<R: MeshReaction>(
    alloc: Global,
    reaction: &R,
    problem: &Problem,
    tree: &Tree,
    layout: &Layout,
    state: &DenseState,
    room: Room,
) -> Result<ReactedCycle, NoMemory>
    requires held { IsHeldIn (settings_of problem.now) tree.now layout.now state.now.held }
    requires fit { IsFit (settings_of problem.now) (state_of tree.now problem.now.cells state.now) }
    requires fields { R.fields reaction.now ≡ field_count (settings_of problem.now) }
    ensures held { IfOk result (λ r. held_of tree.now problem.now.cells r.held
        ≡ reacted_to (settings_of problem.now) (R.reacts reaction.now)
        (state_of tree.now problem.now.cells state.now)) }
    ensures kept { IfOk result (λ r. IsHeldIn (settings_of problem.now) tree.now layout.now r.held) }
    ensures sums { IfOk result (λ r. HasReacted (settings_of problem.now) (R.reacts reaction.now)
        (state_of tree.now problem.now.cells state.now) r.sums) }
{
    let staged = run_stages(alloc, problem, tree, layout, state, room)?;
    let StagedCycle {
        held,
        mut sums,
        room,
    } = staged;
    let reacted = react_held(alloc, reaction, problem, tree, layout, held)?;
    set_reacted(
        &mut sums.flows,
        reacted.made.as_slice(),
        reacted.used.as_slice(),
    );
    add_each(&mut sums.drops, reacted.dropped.as_slice());
    Ok(ReactedCycle {
        held: reacted.held,
        sums,
        room,
    })
}

/// A cycle from a state on a tree, by any reaction: all stages, the reaction, the tags of the leaves, and the check.
/// The room of the cycle before serves again where it fits the mesh.
pub fn settle<R: MeshReaction>(
    alloc: Global,
    reaction: &R,
    problem: &Problem,
    tree: &Tree,
    layout: &Layout,
    state: &DenseState,
    room: Room,
) -> Result<Settled, NoMemory>
    requires held { IsHeldIn (settings_of problem.now) tree.now layout.now state.now.held }
    requires fit { IsFit (settings_of problem.now) (state_of tree.now problem.now.cells state.now) }
    requires fields { R.fields reaction.now ≡ field_count (settings_of problem.now) }
    ensures state { IfOk result (λ r. state_of tree.now problem.now.cells r.state
        ≡ settled (settings_of problem.now) (R.reacts reaction.now)
        (state_of tree.now problem.now.cells state.now)) }
    ensures kept { IfOk result (λ r. IsHeldIn (settings_of problem.now) tree.now layout.now r.state.held) }
    ensures tags { IfOk result (λ r. r.tags.items
        ≡ tags_of (settings_of problem.now) (R.reacts reaction.now)
        (state_of tree.now problem.now.cells state.now)) }
    ensures flows { IfOk result (λ r. r.flows
        ≡ table (field_count (settings_of problem.now))
        (flow_of (settings_of problem.now) (R.reacts reaction.now)
        (state_of tree.now problem.now.cells state.now))) }
    ensures drops { IfOk result (λ r. r.drops
        ≡ table (field_count (settings_of problem.now))
        (drop_of (settings_of problem.now) (R.reacts reaction.now)
        (state_of tree.now problem.now.cells state.now))) }
{
    let reacted = react_cycle(alloc, reaction, problem, tree, layout, state, room)?;
    let leaf_tags = tags(
        alloc,
        problem,
        tree,
        layout,
        reacted.held.lists.as_slice(),
        state.counters.as_slice(),
    )?;
    let checked = check_held(alloc, problem, tree, layout, reacted.held)?;
    let mut sums = reacted.sums;
    add_each(&mut sums.drops, checked.dropped.as_slice());
    Ok(Settled {
        state: DenseState {
            held: checked.held,
            counters: Items::from_vec(leaf_tags.counters),
        },
        tags: leaf_tags.tags,
        flows: Flows::from_vec(sums.flows),
        drops: Items::from_vec(sums.drops),
        room: reacted.room,
    })
}
