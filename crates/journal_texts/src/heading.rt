//! The lines before the events'.

ghost use Rattle.std.specs.Prelude.{◌≡◌, ◌++◌, OnOk};
ghost use Rattle.journal_texts.specs.Journal.{heading_text};
ghost use Rattle.journal_texts.specs.Pieces.{counts_line};

use mesh_num::NoMemory;
use mesh_texts::{push_line, push_named, push_named_line};

/// Which cycle a journal is of, how many stages and lists of tasks there are, and how many seats.
#[derive(Clone, Copy, Debug, PartialEq, Eq)]
pub struct Heading {
    pub cycle: u32,
    pub stages: u32,
    /// The partitions, each with a list of tasks.
    pub partitions: u32,
    pub seats: u32,
}

/// Appends the lines before the events'.
pub fn push_events_heading(heading: Heading, into: &mut Vec<u8>) -> Result<(), NoMemory>
    ensures { OnOk result (into.new.items ≡ into.old.items ++ heading_text heading) }
{
    push_line(into, b"parthenon-whole events 1")?;
    push_counts(heading, into)
}

/// Appends the line of the cycle and the counts.
fn push_counts(heading: Heading, into: &mut Vec<u8>) -> Result<(), NoMemory>
    ensures { OnOk result (into.new.items ≡ into.old.items ++ counts_line heading) }
{
    push_named(into, b"cycle ", u64::from(heading.cycle))?;
    push_named(into, b" stages ", u64::from(heading.stages))?;
    push_named(into, b" partitions ", u64::from(heading.partitions))?;
    push_named_line(into, b" seats ", u64::from(heading.seats))
}
