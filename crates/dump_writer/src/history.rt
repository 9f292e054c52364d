//! The history, by rows.

ghost use Rattle.std.specs.Prelude.{◌≡◌, ◌++◌, ◌<◌, IfOk, OnErr, OnOk, length};
ghost use Rattle.problem_set.specs.Settings.{Settings};
ghost use Rattle.problem_set.specs.SettingsOf.{settings_of};
ghost use Rattle.mesh_rules.specs.Sums.{table};
ghost use Rattle.mesh_rules.specs.Fields.{field_count};
ghost use Rattle.mesh_rules.specs.Mesh.{total_of};
ghost use Rattle.mesh_rules.specs.Cycle.{State};
ghost use Rattle.mesh_rules.specs.Texts.{history_of};
ghost use Rattle.cell_block.specs.Rules.{StandsFor};
ghost use Rattle.dump_writer.specs.History.{HaveFields, row_of, row_text, rows_of, rows_text};
ghost use Rattle.dump_writer.specs.Totals.{CanCount};

use crate::totals::field_totals;
use cell_block::MeshState;
use item_lists::Items;
use mesh_num::NoMemory;
use mesh_texts::{HistoryEntry, push_end, push_field_row, push_history_heading};
use package_fields::Flow;
use problem_set::Problem;
use std::alloc::Global;

/// What the history says of a field after a cycle.
#[derive(Clone, Copy, Debug, PartialEq, Eq)]
pub struct HistRow {
    /// After which cycle; 0 is the opening.
    pub cycle: u32,
    /// The number of the field.
    pub field: u32,
    /// What its totals add up to.
    pub total: u64,
    /// What came in, went out, was made and was used in the cycle.
    pub flow: Flow,
    /// What was dropped in the cycle with blocks that were freed.
    pub dropped: u128,
    /// On how many blocks it is kept.
    pub blocks: u64,
}

/// Rows of the history, cycle by cycle.
pub type HistRows = Items<HistRow>;

/// The row of a field after a cycle, from what the totals of each field add up to.
fn row_after(
    mesh: &MeshState,
    cycle: u32,
    totals: &[u64],
    flows: &[Flow],
    drops: &[u128],
    field: u32,
) -> HistRow
    requires field { field < mesh.now.fields }
    requires totals { length totals.now ≡ mesh.now.fields }
    requires flows { length flows.now ≡ mesh.now.fields }
    requires drops { length drops.now ≡ mesh.now.fields }
    ensures { (p : Settings) (c : State) → StandsFor p mesh.now c → totals.now ≡ table (field_count p) (total_of c.mesh)
        → result ≡ row_of cycle (record { state = c; flows = flows.now; drops = drops.now }) field }
{
    let _ = mesh.tree();
    let _ = mesh.layout();
    HistRow {
        cycle,
        field,
        total: totals[field as usize],
        flow: flows[field as usize],
        dropped: drops[field as usize],
        blocks: mesh.count(field),
    }
}

/// The rows of all fields after a cycle, from what the totals of each field add up to.
fn rows_after(
    alloc: Global,
    mesh: &MeshState,
    cycle: u32,
    totals: &[u64],
    flows: &[Flow],
    drops: &[u128],
) -> Result<HistRows, NoMemory>
    requires totals { length totals.now ≡ mesh.now.fields }
    requires flows { length flows.now ≡ mesh.now.fields }
    requires drops { length drops.now ≡ mesh.now.fields }
    ensures { (p : Settings) (c : State) → StandsFor p mesh.now c → totals.now ≡ table (field_count p) (total_of c.mesh)
        → IfOk result (λ rows. rows ≡ rows_of p cycle (record { state = c; flows = flows.now; drops = drops.now })) }
{
    let mut rows = HistRows::new(alloc);
    for field in 0..mesh.fields() {
        rows.push(row_after(mesh, cycle, totals, flows, drops, field))?;
    }
    Ok(rows)
}

/// Adds the rows of a cycle that led to a mesh state, by rising field, with the flows and the drops of the cycle.
/// Before the first cycle these are 0. After a refusal the rows are as before.
pub fn push_rows_of(
    alloc: Global,
    problem: &Problem,
    mesh: &MeshState,
    cycle: u32,
    flows: &[Flow],
    drops: &[u128],
    rows: &mut HistRows,
) -> Result<(), NoMemory>
    requires count { CanCount (settings_of problem.now) mesh.now }
    requires flows { length flows.now ≡ field_count (settings_of problem.now) }
    requires drops { length drops.now ≡ field_count (settings_of problem.now) }
    ensures added { (c : State) → StandsFor (settings_of problem.now) mesh.now c
        → OnOk result (rows.new ≡ rows.old ++ rows_of (settings_of problem.now) cycle
        (record { state = c; flows = flows.now; drops = drops.now })) }
    ensures refused { OnErr result (rows.new ≡ rows.old) }
{
    let totals = field_totals(alloc, problem, mesh)?;
    let more = rows_after(alloc, mesh, cycle, totals.as_slice(), flows, drops)?;
    rows.append(more)?;
    Ok(())
}

/// Appends the line of a row.
fn push_row(problem: &Problem, row: &HistRow, into: &mut Vec<u8>) -> Result<(), NoMemory>
    requires { row.now.field < field_count (settings_of problem.now) }
    ensures { OnOk result (into.new.items ≡ into.old.items ++ row_text (settings_of problem.now) row.now) }
{
    let entry = HistoryEntry {
        total: row.total,
        flow: row.flow,
        dropped: row.dropped,
        blocks: 0,
    };
    push_field_row(problem, row.cycle, row.field, &entry, row.blocks, into)
}

/// Appends the lines of rows. After a refusal the text may end with a part of what was to be appended.
pub fn push_rows(problem: &Problem, rows: &[HistRow], into: &mut Vec<u8>) -> Result<(), NoMemory>
    requires { HaveFields (settings_of problem.now) rows.now }
    ensures { OnOk result (into.new.items ≡ into.old.items ++ rows_text (settings_of problem.now) rows.now) }
{
    for row in rows {
        push_row(problem, row, into)?;
    }
    Ok(())
}

/// The text of the history, from the rows of all its cycles.
pub fn history_text(alloc: Global, problem: &Problem, rows: &HistRows) -> Result<Vec<u8>, NoMemory>
    requires { HaveFields (settings_of problem.now) rows.now }
    ensures { IfOk result (λ text. text.items
        ≡ history_of (settings_of problem.now) (rows_text (settings_of problem.now) rows.now)) }
{
    let mut text = Vec::new(alloc);
    push_history_heading(problem, &mut text)?;
    push_rows(problem, rows.as_slice(), &mut text)?;
    push_end(&mut text)?;
    Ok(text)
}
