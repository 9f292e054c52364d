//! The text of a journal.

ghost use Rattle.std.specs.Prelude.{◌≡◌, ◌++◌, IfOk, OnOk};
ghost use Rattle.std.specs.List.{flat_map};
ghost use Rattle.journal_texts.specs.Journal.{TextsTellEvents, events_text};
ghost use Rattle.journal_texts.specs.Lines.{event_line};

use crate::heading::{Heading, push_events_heading};
use crate::lines::push_event_line;
use cycle_events::{Event, Journal};
use mesh_num::NoMemory;
use mesh_texts::push_end;
use problem_set::Problem;
use std::alloc::Global;

/// The text of a cycle's journal, from the number of its partitions and of its seats.
pub fn events_text(
    alloc: Global,
    problem: &Problem,
    cycle: u32,
    partitions: u32,
    seats: u32,
    journal: &Journal,
) -> Result<Vec<u8>, NoMemory>
    ensures { IfOk result (λ text. text.items ≡ events_text
        (record { cycle = cycle; stages = problem.now.nstages; partitions = partitions; seats = seats })
        journal.now.events) }
{
    let stages = problem.nstages;
    let mut text = Vec::new(alloc);
    push_events_heading(
        Heading {
            cycle,
            stages,
            partitions,
            seats,
        },
        &mut text,
    )?;
    push_event_lines(journal.as_slice(), &mut text)?;
    push_end(&mut text)?;
    Ok(text)
}

/// Appends the lines of events.
pub fn push_event_lines(events: &[Event], into: &mut Vec<u8>) -> Result<(), NoMemory>
    ensures { OnOk result (into.new.items ≡ into.old.items ++ flat_map event_line events.now) }
{
    for event in events {
        push_event_line(event, into)?;
    }
    Ok(())
}

/// No two journals have one text under one heading.
pub fn text_law()
    ensures { TextsTellEvents }
{}
