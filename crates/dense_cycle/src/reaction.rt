//! The reaction of a cycle.

ghost use Rattle.std.specs.Prelude.{◌≡◌, IfOk, length};
ghost use Rattle.problem_set.specs.SettingsOf.{settings_of};
ghost use Rattle.block_tree.specs.Blocks.{leaves};
ghost use Rattle.mesh_rules.specs.Sums.{table};
ghost use Rattle.mesh_rules.specs.Fields.{field_count};
ghost use Rattle.mesh_rules.specs.Reaction.{made_of, used_of};
ghost use Rattle.mesh_rules.specs.Cycle.{react_held as react_held_of};
ghost use Rattle.dense_mesh.specs.Meshes.{mesh_of};
ghost use Rattle.dense_cycle.specs.Flows.{drop_of_reaction};
ghost use Rattle.dense_cycle.specs.Held.{IsHeldIn, held_of};

use crate::staging::cut_held;
use crate::state::DenseHeld;
use block_layout::Layout;
use block_tree::Tree;
use dense_mask::keep_by_reaction;
use dense_reaction::MeshReaction;
use mesh_num::NoMemory;
use problem_set::Problem;
use std::alloc::Global;

/// The mesh after the reaction, what it made and used by field, and what was dropped after it.
#[derive(Drop)]
pub(crate) struct ReactedHeld {
    pub held: DenseHeld,
    pub made: Vec<u128>,
    pub used: Vec<u128>,
    pub dropped: Vec<u128>,
}

/// The reaction: each cell is changed, what is then above the threshold is kept, and what is not kept is made
/// zero.
pub(crate) fn react_held<R: MeshReaction>(
    alloc: Global,
    reaction: &R,
    problem: &Problem,
    tree: &Tree,
    layout: &Layout,
    held: DenseHeld,
) -> Result<ReactedHeld, NoMemory>
    requires held { IsHeldIn (settings_of problem.now) tree.now layout.now held }
    requires fields { R.fields reaction.now ≡ field_count (settings_of problem.now) }
    ensures held { IfOk result (λ r. held_of tree.now problem.now.cells r.held
        ≡ react_held_of (settings_of problem.now) (R.reacts reaction.now)
        (held_of tree.now problem.now.cells held)) }
    ensures kept { IfOk result (λ r. IsHeldIn (settings_of problem.now) tree.now layout.now r.held) }
    ensures made { IfOk result (λ r. r.made.items
        ≡ table (field_count (settings_of problem.now))
        (made_of (R.reacts reaction.now) (field_count (settings_of problem.now))
        (mesh_of tree.now problem.now.cells held.lists))) }
    ensures used { IfOk result (λ r. r.used.items
        ≡ table (field_count (settings_of problem.now))
        (used_of (R.reacts reaction.now) (field_count (settings_of problem.now))
        (mesh_of tree.now problem.now.cells held.lists))) }
    ensures dropped { IfOk result (λ r. r.dropped.items
        ≡ table (field_count (settings_of problem.now))
        (drop_of_reaction (settings_of problem.now) (R.reacts reaction.now)
        (held_of tree.now problem.now.cells held))) }
{
    let DenseHeld { lists, slots: kept } = held;
    let reacted = reaction.react_on(alloc, problem, tree, layout, lists.into_vec())?;
    let slots = keep_by_reaction(
        alloc,
        problem,
        tree,
        layout,
        reacted.lists.as_slice(),
        kept.as_slice(),
    )?;
    let cut = cut_held(alloc, problem, tree, layout, reacted.lists, slots)?;
    Ok(ReactedHeld {
        held: cut.held,
        made: reacted.made,
        used: reacted.used,
        dropped: cut.dropped,
    })
}
