//! The lines of events.

ghost use Rattle.std.specs.Prelude.{◌≡◌, ◌++◌, OnOk};
ghost use Rattle.journal_texts.specs.Lines.{event_line, place_text, places_text};
ghost use Rattle.journal_texts.specs.Pieces.{deliver_line, give_line, take_line, word_and_places};

use cycle_events::Event;
use mesh_num::NoMemory;
use mesh_texts::{push_byte, push_bytes, push_named, push_next, push_three};
use sparse_pool::Place;

/// Appends the line of an event.
pub fn push_event_line(event: &Event, into: &mut Vec<u8>) -> Result<(), NoMemory>
    ensures { OnOk result (into.new.items ≡ into.old.items ++ event_line event.now) }
{
    match event {
        Event::Take {
            seat,
            list,
            task,
            places,
        } => push_take(&[*seat, *list, *task], places.as_slice(), into),
        Event::Give {
            seat,
            list,
            task,
            made,
            freed,
        } => push_give(
            &[*seat, *list, *task],
            made.as_slice(),
            freed.as_slice(),
            into,
        ),
        Event::Deliver { seat, letter, made } => {
            push_deliver(*seat, *letter, made.as_slice(), into)
        }
    }
}

/// Appends the line of a Take, from seat, list and task.
fn push_take(numbers: &[u32; 3], places: &[Place], into: &mut Vec<u8>) -> Result<(), NoMemory>
    ensures { OnOk result (into.new.items ≡ into.old.items ++ take_line numbers.now places.now) }
{
    push_three(into, b"take ", numbers)?;
    push_places(places, into)?;
    push_byte(into, b'\n')
}

/// Appends the line of a Give, from seat, list and task.
fn push_give(
    numbers: &[u32; 3],
    made: &[Place],
    freed: &[Place],
    into: &mut Vec<u8>,
) -> Result<(), NoMemory>
    ensures { OnOk result (into.new.items ≡ into.old.items ++ give_line numbers.now made.now freed.now) }
{
    push_three(into, b"give ", numbers)?;
    push_named_places(b" made", made, into)?;
    push_named_places(b" freed", freed, into)?;
    push_byte(into, b'\n')
}

/// Appends the line of a Deliver.
fn push_deliver(seat: u32, letter: u32, made: &[Place], into: &mut Vec<u8>) -> Result<(), NoMemory>
    ensures { OnOk result (into.new.items ≡ into.old.items ++ deliver_line seat letter made.now) }
{
    push_named(into, b"deliver ", u64::from(seat))?;
    push_named(into, b" ", u64::from(letter))?;
    push_named_places(b" made", made, into)?;
    push_byte(into, b'\n')
}

/// Appends a word and places.
fn push_named_places(word: &[u8], places: &[Place], into: &mut Vec<u8>) -> Result<(), NoMemory>
    ensures { OnOk result (into.new.items ≡ into.old.items ++ word_and_places word.now places.now) }
{
    push_bytes(into, word)?;
    push_places(places, into)
}

/// Appends places, each behind a space.
fn push_places(places: &[Place], into: &mut Vec<u8>) -> Result<(), NoMemory>
    ensures { OnOk result (into.new.items ≡ into.old.items ++ places_text places.now) }
{
    for at in places {
        push_place(*at, into)?;
    }
    Ok(())
}

/// Appends a place behind a space: its block, a dot and its field.
fn push_place(at: Place, into: &mut Vec<u8>) -> Result<(), NoMemory>
    ensures { OnOk result (into.new.items ≡ into.old.items ++ place_text at) }
{
    push_next(into, u64::from(at.block))?;
    push_named(into, b".", u64::from(at.field))
}
