//! What can be done next.

ghost use Rattle.journal_tables.specs.NextWork.{IsNext};

use cycle_tables::Tables;

/// What a seat can do next.
#[derive(Clone, Copy, Debug, PartialEq, Eq)]
pub enum NextWork {
    /// The next task of a list may be taken.
    Task { list: u32 },
    /// No task may be taken, and a letter of this number can be delivered to this list.
    Letter { number: u32, list: u32 },
    /// All is done.
    Done,
    /// Nothing, until a task is given, of which so many are out.
    Waiting { out: u32 },
}

/// What can be done next by the tables: a task before a letter.
pub fn next_work<T>(tables: &Tables<T>) -> NextWork
    ensures { IsNext tables.now result }
{
    if let Some(list) = tables.ready() {
        return NextWork::Task { list };
    }
    if let Some(number) = tables.on_wire() {
        let list = tables.letter(number).to;
        return NextWork::Letter { number, list };
    }
    if tables.is_done() {
        return NextWork::Done;
    }
    NextWork::Waiting {
        out: tables.leases(),
    }
}
