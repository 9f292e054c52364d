//! What each event makes of a slot.

ghost use Rattle.std.specs.Prelude.{◌≡◌, ◌+◌, ◌<◌, ◌≤◌, ◌^◌, ◌||◌, IsTrue};
ghost use Rattle.row_machine.specs.Rules.{lent_cell_of, lent_of};
ghost use Rattle.row_machine.specs.Slots.{ChecksAs, ComesAs, FillsAs, FluxesAs, IsSmall, ReactsAs, ReleasesAs, TakesAs, TurnsInto, UpdatesAs};

use crate::slot::{Buffer, Slot};

fn either(a: bool, b: bool) -> bool
    ensures { result ≡ (a || b) }
{
    if a { true } else { b }
}

fn lent(buffer: Option<Buffer>) -> Buffer
    ensures { result ≡ lent_of buffer }
{
    match buffer {
        Some(buffer) => buffer,
        None => Buffer {
            cell: 0,
            low: 0,
            high: 0,
            low_right: 0,
            low_left: 0,
            high_right: 0,
            high_left: 0,
        },
    }
}

/// A task whose fields have this one's flag, or not, is taken: it is lent the buffer that there is.
pub fn take(slot: Slot, has_flag: bool) -> Slot
    ensures { TakesAs has_flag slot result }
{
    match slot.buffer {
        Some(_) => Slot {
            leased: has_flag,
            ..slot
        },
        None => Slot {
            leased: false,
            ..slot
        },
    }
}

/// A letter's part comes. It makes a buffer of zeros where there is none and the part is not zero, also beneath a
/// lease.
pub fn come(slot: Slot, part: u64) -> Slot
    ensures { ComesAs part slot result }
{
    match slot.buffer {
        Some(_) => slot,
        None => {
            if part == 0 {
                slot
            } else {
                Slot {
                    buffer: Some(lent(None)),
                    ..slot
                }
            }
        }
    }
}

/// A task that changes no buffer is given: to send, to post and to tag, and in a row, where no block is finer, to
/// correct.
pub fn release(slot: Slot) -> Slot
    ensures { ReleasesAs slot result }
{
    Slot {
        leased: false,
        ..slot
    }
}

/// Ghosts are filled with what lies beyond the two ends; where something flows in from outside, a buffer is made that
/// was not lent.
pub fn fill(slot: Slot, low: u64, high: u64, flows_in: bool, calls: bool) -> Slot
    ensures { FillsAs low high flows_in calls slot result }
{
    let kept = either(slot.kept, calls);
    if slot.leased {
        let lent = lent(slot.buffer);
        Slot {
            buffer: Some(Buffer { low, high, ..lent }),
            leased: false,
            kept,
            ..slot
        }
    } else if flows_in {
        let lent = lent(None);
        Slot {
            buffer: Some(Buffer { low, high, ..lent }),
            leased: false,
            kept,
            ..slot
        }
    } else {
        Slot {
            leased: false,
            kept,
            ..slot
        }
    }
}

/// A quarter of each cell passes each of its two faces.
pub fn flux(slot: Slot) -> Slot
    ensures { FluxesAs slot result }
{
    if slot.leased {
        let lent = lent(slot.buffer);
        let buffer = Buffer {
            low_right: lent.low / 4,
            low_left: lent.cell / 4,
            high_right: lent.cell / 4,
            high_left: lent.high / 4,
            ..lent
        };
        Slot {
            buffer: Some(buffer),
            leased: false,
            ..slot
        }
    } else {
        Slot {
            leased: false,
            ..slot
        }
    }
}

/// The cell is updated; where the field is not kept, it is made zero, and what it held is dropped.
pub fn update(slot: Slot) -> Slot
    requires { IsSmall slot }
    ensures { UpdatesAs slot result }
{
    if slot.leased {
        let lent = lent(slot.buffer);
        let cell = lent.cell.saturating_sub(lent.low_left + lent.high_right)
            + (lent.low_right + lent.high_left);
        if slot.kept {
            Slot {
                buffer: Some(Buffer { cell, ..lent }),
                leased: false,
                ..slot
            }
        } else {
            Slot {
                buffer: Some(Buffer { cell: 0, ..lent }),
                leased: false,
                dropped: slot.dropped + cell,
                ..slot
            }
        }
    } else {
        Slot {
            leased: false,
            ..slot
        }
    }
}

/// A cell's reaction came to a result: the field is kept where it was or where the result is above the threshold, and
/// else dropped.
pub fn react(slot: Slot, above: u64, result_cell: u64) -> Slot
    requires small { IsSmall slot }
    requires few { result_cell < 2 ^ 62 }
    ensures { ReactsAs above result_cell slot result }
{
    if either(slot.kept, above < result_cell) {
        let lent = lent(slot.buffer);
        Slot {
            buffer: Some(Buffer {
                cell: result_cell,
                ..lent
            }),
            leased: false,
            kept: true,
            ..slot
        }
    } else {
        match slot.buffer {
            Some(buffer) => Slot {
                buffer: Some(Buffer { cell: 0, ..buffer }),
                leased: false,
                kept: false,
                dropped: slot.dropped + result_cell,
                ..slot
            },
            None => Slot {
                leased: false,
                kept: false,
                dropped: slot.dropped + result_cell,
                ..slot
            },
        }
    }
}

fn lent_cell(slot: Slot) -> u64
    ensures value { result ≡ lent_cell_of slot }
    ensures at_most { result ≤ (lent_of slot.buffer).cell }
{
    if slot.leased {
        lent(slot.buffer).cell
    } else {
        0
    }
}

/// The check: a field that was idle at so many checks in a row is freed and dropped, and so is a buffer of a field
/// that is not kept.
pub fn check(slot: Slot, idle_at: u64, limit: u64) -> Slot
    requires { IsSmall slot }
    ensures { ChecksAs idle_at limit slot result }
{
    let cell = lent_cell(slot);
    if slot.kept {
        if cell <= idle_at {
            if limit <= slot.idle + 1 {
                Slot {
                    buffer: None,
                    leased: false,
                    kept: false,
                    idle: 0,
                    dropped: slot.dropped + cell,
                }
            } else {
                Slot {
                    leased: false,
                    idle: slot.idle + 1,
                    ..slot
                }
            }
        } else {
            Slot {
                leased: false,
                idle: 0,
                ..slot
            }
        }
    } else {
        Slot {
            buffer: None,
            leased: false,
            dropped: slot.dropped + cell,
            ..slot
        }
    }
}

/// What the two fields of a block turn into: half of the first becomes the second's.
pub fn turn(first: u64, second: u64) -> (u64, u64)
    requires { first + second < 2 ^ 62 }
    ensures { TurnsInto first second result.0 result.1 }
{
    (first - first / 2, second + first / 2)
}

/// Whether a slot's numbers are small enough to be added.
pub fn is_small(slot: &Slot) -> bool
    ensures { IsTrue result → IsSmall slot.now }
{
    let lent = lent(slot.buffer);
    let parts = lent.low_left < 1 << 58
        && lent.high_right < 1 << 58
        && lent.low_right < 1 << 58
        && lent.high_left < 1 << 58;
    parts && lent.cell < 1 << 60 && slot.dropped < 1 << 62 && slot.idle < 1 << 62
}
