//! The lines of the history.

ghost use Rattle.std.specs.Prelude.{◌≡◌, ◌++◌, ◌<◌, IfOk, OnOk, length};
ghost use Rattle.problem_set.specs.SettingsOf.{settings_of};
ghost use Rattle.package_fields.specs.declared.flow.Flow.{Flow};
ghost use Rattle.mesh_rules.specs.Fields.{field_at, field_count};
ghost use Rattle.mesh_rules.specs.Run.{Reached};
ghost use Rattle.mesh_rules.specs.Texts.{drop_text, history_heading, history_line, history_lines, history_of, shows_drops};
ghost use Rattle.mesh_texts.specs.History.{entries_of, entry_line, entry_lines};
ghost use Rattle.mesh_texts.specs.Pieces.{amount_words, flow_words, label_words};

use crate::pieces::{push_bytes, push_end, push_named, push_named_amount, push_named_line};
use mesh_num::NoMemory;
use package_fields::Flow;
use problem_set::Problem;
use std::alloc::Global;

/// What the history says of a field after a cycle.
#[derive(Clone, Copy, Debug, PartialEq, Eq)]
pub struct HistoryEntry {
    /// What its totals add up to.
    pub total: u64,
    /// What came in, went out, was made and was used in the cycle.
    pub flow: Flow,
    /// What was dropped in the cycle with blocks that were freed.
    pub dropped: u128,
    /// On how many blocks it is kept.
    pub blocks: u32,
}

/// Appends the first line of the history.
pub fn push_history_heading(problem: &Problem, into: &mut Vec<u8>) -> Result<(), NoMemory>
    ensures { OnOk result (into.new.items ≡ into.old.items ++ history_heading (settings_of problem.now)) }
{
    let form = if shows_drops(problem) { 2 } else { 1 };
    push_named_line(into, b"parthenon-whole history ", form)
}

/// Whether the history shows drops: with any threshold that is not 0.
fn shows_drops(problem: &Problem) -> bool
    ensures { result ≡ shows_drops (settings_of problem.now) }
{
    !(problem.alloc_threshold == 0 && problem.dealloc_threshold == 0)
}

/// Appends the lines of a cycle: a line for each field, in the order of their numbers.
pub fn push_history_lines(
    problem: &Problem,
    cycle: u32,
    entries: &[HistoryEntry],
    into: &mut Vec<u8>,
) -> Result<(), NoMemory>
    requires { length entries.now ≡ field_count (settings_of problem.now) }
    ensures lines { OnOk result (into.new.items ≡ into.old.items
        ++ entry_lines (settings_of problem.now) cycle entries.now) }
    ensures reached { (r : Reached) → entries.now ≡ entries_of (settings_of problem.now) r → OnOk result (into.new.items ≡ into.old.items
        ++ history_lines (settings_of problem.now) cycle r) }
{
    for (field, entry) in entries.iter().enumerate() {
        push_history_line(problem, cycle, field as u32, entry, into)?;
    }
    Ok(())
}

/// Appends the line of a field after a cycle.
pub fn push_history_line(
    problem: &Problem,
    cycle: u32,
    field: u32,
    entry: &HistoryEntry,
    into: &mut Vec<u8>,
) -> Result<(), NoMemory>
    requires { field < field_count (settings_of problem.now) }
    ensures { OnOk result (into.new.items ≡ into.old.items
        ++ entry_line (settings_of problem.now) cycle field entry.now) }
{
    let blocks = u64::from(entry.blocks);
    push_field_row(problem, cycle, field, entry, blocks, into)
}

/// Appends that line with another number of blocks.
pub fn push_field_row(
    problem: &Problem,
    cycle: u32,
    field: u32,
    entry: &HistoryEntry,
    blocks: u64,
    into: &mut Vec<u8>,
) -> Result<(), NoMemory>
    requires { field < field_count (settings_of problem.now) }
    ensures { OnOk result (into.new.items ≡ into.old.items ++ history_line (settings_of problem.now) cycle (field_at (settings_of problem.now) field).label
        entry.now.total entry.now.flow entry.now.dropped blocks) }
{
    let label = problem.fields.fields()[field as usize].label.as_str();
    push_label(cycle, label, into)?;
    push_amounts(problem, entry, into)?;
    push_named_line(into, b" blocks ", blocks)
}

/// Appends a cycle and a label.
fn push_label(cycle: u32, label: &str, into: &mut Vec<u8>) -> Result<(), NoMemory>
    ensures { OnOk result (into.new.items ≡ into.old.items ++ label_words cycle label.now) }
{
    push_named(into, b"cycle ", u64::from(cycle))?;
    push_bytes(into, b" field ")?;
    push_bytes(into, label.as_bytes())
}

/// Appends a total, what changed it, and what was dropped where the history shows that.
fn push_amounts(problem: &Problem, entry: &HistoryEntry, into: &mut Vec<u8>) -> Result<(), NoMemory>
    ensures { OnOk result (into.new.items ≡ into.old.items
        ++ amount_words (settings_of problem.now) entry.now.total entry.now.flow entry.now.dropped) }
{
    push_named(into, b" total ", entry.total)?;
    push_flow(&entry.flow, into)?;
    push_drop(problem, entry.dropped, into)
}

/// Appends what came in, went out, was made and was used.
fn push_flow(flow: &Flow, into: &mut Vec<u8>) -> Result<(), NoMemory>
    ensures { OnOk result (into.new.items ≡ into.old.items ++ flow_words flow.now) }
{
    push_named_amount(into, b" in ", flow.inflow)?;
    push_named_amount(into, b" out ", flow.outflow)?;
    push_named_amount(into, b" made ", flow.made)?;
    push_named_amount(into, b" used ", flow.used)
}

/// Appends what was dropped, where the history shows it.
fn push_drop(problem: &Problem, dropped: u128, into: &mut Vec<u8>) -> Result<(), NoMemory>
    ensures { OnOk result (into.new.items ≡ into.old.items ++ drop_text (settings_of problem.now) dropped) }
{
    if shows_drops(problem) {
        push_named_amount(into, b" drop ", dropped)
    } else {
        Ok(())
    }
}

/// The text of the history, from the lines of all its cycles.
pub fn history_text(alloc: Global, problem: &Problem, lines: &[u8]) -> Result<Vec<u8>, NoMemory>
    ensures { IfOk result (λ text. text.items ≡ history_of (settings_of problem.now) lines.now) }
{
    let mut text = Vec::new(alloc);
    push_history_heading(problem, &mut text)?;
    push_bytes(&mut text, lines)?;
    push_end(&mut text)?;
    Ok(text)
}
