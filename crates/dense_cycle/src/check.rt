//! The check at the end of a cycle.

ghost use Rattle.std.specs.Prelude.{◌≡◌, ℕ, ◌<◌, IfOk, length};
ghost use Rattle.problem_set.specs.SettingsOf.{settings_of};
ghost use Rattle.block_tree.specs.Blocks.{leaves};
ghost use Rattle.mesh_rules.specs.Sums.{table};
ghost use Rattle.mesh_rules.specs.Fields.{field_count};
ghost use Rattle.mesh_rules.specs.Cycle.{check_held as check_held_of};
ghost use Rattle.run_laws.specs.MaskLaws.{MaskFits};
ghost use Rattle.dense_mesh.specs.Masks.{mask_of};
ghost use Rattle.dense_cycle.specs.Flows.{drop_at_check};
ghost use Rattle.dense_cycle.specs.Held.{IsHeldIn, held_of};

use crate::staging::{CutHeld, cut_held};
use crate::state::DenseHeld;
use block_layout::Layout;
use block_tree::Tree;
use dense_mask::keep_by_check;
use mesh_num::NoMemory;
use problem_set::Problem;
use std::alloc::Global;

/// The check: what was idle often enough is kept no more, and made zero.
pub(crate) fn check_held(
    alloc: Global,
    problem: &Problem,
    tree: &Tree,
    layout: &Layout,
    held: DenseHeld,
) -> Result<CutHeld, NoMemory>
    requires held { IsHeldIn (settings_of problem.now) tree.now layout.now held }
    requires fits { MaskFits (settings_of problem.now) (leaves tree.now)
        (mask_of (length (leaves tree.now)) held.slots) }
    ensures held { IfOk result (λ c. held_of tree.now problem.now.cells c.held
        ≡ check_held_of (settings_of problem.now) (held_of tree.now problem.now.cells held)) }
    ensures kept { IfOk result (λ c. IsHeldIn (settings_of problem.now) tree.now layout.now c.held) }
    ensures dropped { IfOk result (λ c. c.dropped.items
        ≡ table (field_count (settings_of problem.now))
        (drop_at_check (settings_of problem.now) (held_of tree.now problem.now.cells held))) }
{
    let slots = keep_by_check(
        alloc,
        problem,
        tree,
        layout,
        held.lists.as_slice(),
        held.slots.as_slice(),
    )?;
    cut_held(alloc, problem, tree, layout, held.lists.into_vec(), slots)
}
