//! What the history says of each field.

ghost use Rattle.std.specs.Prelude.{◌≡◌, ◌<◌, IfOk, length};
ghost use Rattle.problem_set.specs.SettingsOf.{settings_of};
ghost use Rattle.mesh_rules.specs.Fields.{field_count};
ghost use Rattle.mesh_texts.specs.History.{entries_of, entry_of};
ghost use Rattle.dense_cycle.specs.Held.{IsHeldIn};
ghost use Rattle.dense_model.specs.Stands.{reached_in};

use block_layout::Layout;
use block_tree::Tree;
use dense_cycle::DenseState;
use dense_mask::{blocks_with, field_total};
use mesh_num::NoMemory;
use mesh_texts::HistoryEntry;
use package_fields::Flow;
use problem_set::Problem;
use std::alloc::Global;

/// What the history says of a field after a cycle.
fn entry_after(
    problem: &Problem,
    tree: &Tree,
    layout: &Layout,
    state: &DenseState,
    flows: &[Flow],
    drops: &[u128],
    field: u32,
) -> HistoryEntry
    requires held { IsHeldIn (settings_of problem.now) tree.now layout.now state.now.held }
    requires field { field < field_count (settings_of problem.now) }
    requires flows { length flows.now ≡ field_count (settings_of problem.now) }
    requires drops { length drops.now ≡ field_count (settings_of problem.now) }
    ensures { result ≡ entry_of (reached_in (settings_of problem.now) tree.now state.now flows.now drops.now) field }
{
    let _ = tree.len();
    HistoryEntry {
        total: field_total(problem, tree, layout, state.held.lists.as_slice(), field),
        flow: flows[field as usize],
        dropped: drops[field as usize],
        blocks: blocks_with(state.held.slots.as_slice(), field) as u32,
    }
}

/// What it says of all fields.
pub(crate) fn entries_after(
    alloc: Global,
    problem: &Problem,
    tree: &Tree,
    layout: &Layout,
    state: &DenseState,
    flows: &[Flow],
    drops: &[u128],
) -> Result<Vec<HistoryEntry>, NoMemory>
    requires held { IsHeldIn (settings_of problem.now) tree.now layout.now state.now.held }
    requires flows { length flows.now ≡ field_count (settings_of problem.now) }
    requires drops { length drops.now ≡ field_count (settings_of problem.now) }
    ensures { IfOk result (λ entries. entries.items
        ≡ entries_of (settings_of problem.now)
        (reached_in (settings_of problem.now) tree.now state.now flows.now drops.now)) }
{
    let mut entries = Vec::new(alloc);
    for field in 0..problem.moves.len() as u32 {
        entries.push(entry_after(problem, tree, layout, state, flows, drops, field))?;
    }
    Ok(entries)
}
