//! Whole cycles of a row of four blocks, each a list of its own, through legal orders of events that are drawn by
//! chance; each end is compared with the run of whole meshes, stage by stage.

ghost use Rattle.std.specs.Prelude.{◌<◌, vec_len};

use crate::events::{check, come, fill, flux, is_small, react, release, take, turn, update};
use crate::mail::Part;
use crate::reading::part_of;
use crate::slot::{Buffer, Slot};
use std::test::Fail;

/// What a cycle starts with: what flows in at the low end, the thresholds, and the cells.
#[derive(Clone, Copy)]
struct Case {
    inflow: [u64; 2],
    above: u64,
    idle_at: u64,
    limit: u64,
    idle: u64,
    cells: [[u64; 2]; 4],
}

/// The slots of the four blocks, of two fields each.
#[derive(Clone, Copy)]
struct Slots {
    at: [[Slot; 2]; 4],
}

#[derive(Drop)]
struct Row {
    slots: Slots,
    given: [u64; 4],
    out: [bool; 4],
    sent: u64,
    wire: Vec<(Part, Part)>,
    mail: Vec<Part>,
    second_mail: Vec<Part>,
}

/// A run of whole meshes: cells, what is kept, idle counts and drops.
#[derive(Clone, Copy)]
struct Run {
    cells: [[u64; 2]; 4],
    kept: [[bool; 2]; 4],
    idle: [[u64; 2]; 4],
    dropped: [[u64; 2]; 4],
}

fn beyond(case: &Case, cells: &[[u64; 2]; 4], b: usize, f: usize) -> (u64, u64)
    requires block { b < 4 }
    requires field { f < 2 }
{
    let low = if b == 0 {
        case.inflow[f]
    } else {
        cells[b - 1][f]
    };
    let high = if b == 3 { 0 } else { cells[b + 1][f] };
    (low, high)
}

fn cut(run: &mut Run, b: usize, f: usize, keeps: bool, cell: u64)
    requires block { b < 4 }
    requires field { f < 2 }
{
    run.kept[b][f] = keeps;
    if keeps {
        run.cells[b][f] = cell;
    } else {
        run.cells[b][f] = 0;
        run.dropped[b][f] = run.dropped[b][f].wrapping_add(cell);
    }
}

fn stage(case: &Case, run: &mut Run) {
    let old = *run;
    for b in 0..4usize {
        for f in 0..2usize {
            let (low, high) = beyond(case, &old.cells, b, f);
            let here = old.cells[b][f];
            let cell = (here - here / 4 - here / 4)
                .wrapping_add(low / 4)
                .wrapping_add(high / 4);
            cut(
                run,
                b,
                f,
                old.kept[b][f] || low > case.above || high > case.above,
                cell,
            );
        }
    }
}

fn reaction(case: &Case, run: &mut Run) {
    let old = *run;
    for b in 0..4usize {
        let half = old.cells[b][0] / 2;
        let first = old.cells[b][0] - half;
        let second = old.cells[b][1].wrapping_add(half);
        cut(run, b, 0, old.kept[b][0] || first > case.above, first);
        cut(run, b, 1, old.kept[b][1] || second > case.above, second);
    }
}

fn last_check(case: &Case, run: &mut Run) {
    let old = *run;
    for b in 0..4usize {
        for f in 0..2usize {
            let idle = old.cells[b][f] <= case.idle_at;
            let more = old.idle[b][f].wrapping_add(1);
            if old.kept[b][f] {
                run.idle[b][f] = if idle && more < case.limit { more } else { 0 };
                cut(run, b, f, !(idle && case.limit <= more), old.cells[b][f]);
            }
        }
    }
}

fn first_run(case: &Case) -> Run {
    let mut run = Run {
        cells: case.cells,
        kept: [[false; 2]; 4],
        idle: [[0; 2]; 4],
        dropped: [[0; 2]; 4],
    };
    for b in 0..4usize {
        for f in 0..2usize {
            run.kept[b][f] = case.cells[b][f] > 0;
            run.idle[b][f] = if case.cells[b][f] > 0 { case.idle } else { 0 };
        }
    }
    run
}

fn first_slot(case: &Case, b: usize, f: usize) -> Slot
    requires block { b < 4 }
    requires field { f < 2 }
{
    let cell = case.cells[b][f];
    let buffer = Buffer {
        cell,
        low: 0,
        high: 0,
        low_right: 0,
        low_left: 0,
        high_right: 0,
        high_left: 0,
    };
    if cell > 0 {
        Slot {
            buffer: Some(buffer),
            leased: false,
            kept: true,
            idle: case.idle,
            dropped: 0,
        }
    } else {
        Slot {
            buffer: None,
            leased: false,
            kept: false,
            idle: 0,
            dropped: 0,
        }
    }
}

fn lent_cell(slot: &Slot) -> u64 {
    match slot.buffer {
        Some(buffer) => { if slot.leased { buffer.cell } else { 0 } }
        None => 0,
    }
}

fn letters_due(i: usize) -> usize {
    if i == 0 || i == 3 { 1 } else { 2 }
}

fn may_take(row: &Row, i: usize) -> bool
    requires { i < 4 }
{
    let given = row.given[i];
    if row.out[i] || given >= 15 {
        return false;
    }
    if given >= 12 {
        return row.given.iter().all(|g| *g >= 12);
    }
    if given % 6 != 1 {
        return true;
    }
    let mut come: usize = 0;
    for part in &row.mail {
        if part.round == given / 3 && part.block == i as u64 {
            come = come.wrapping_add(1);
        }
    }
    come == letters_due(i)
}

fn send(row: &mut Row, i: usize, to: usize, high: bool, round: u64) -> Result<(), Fail>
    requires { i < 4 }
{
    let first = lent_cell(&row.slots.at[i][0]);
    let second = lent_cell(&row.slots.at[i][1]);
    let number = row.sent;
    row.sent = number.wrapping_add(1);
    let block = to as u64;
    row.wire.push((
        Part {
            number,
            round,
            block,
            high,
            total: first,
        },
        Part {
            number,
            round,
            block,
            high,
            total: second,
        },
    ))?;
    Ok(())
}

fn fill_place(case: &Case, row: &mut Row, i: usize, f: usize, round: u64)
    requires block { i < 4 }
    requires field { f < 2 }
{
    let mail = if f == 0 {
        row.mail.as_slice()
    } else {
        row.second_mail.as_slice()
    };
    let sent_low = part_of(mail, round, i as u64, false);
    let high = part_of(mail, round, i as u64, true);
    let low = if i == 0 { case.inflow[f] } else { sent_low };
    let calls = low > case.above || high > case.above;
    row.slots.at[i][f] = fill(row.slots.at[i][f], low, high, i == 0 && low > 0, calls);
}

fn give(case: &Case, row: &mut Row, i: usize) -> Result<(), Fail>
    requires { i < 4 }
{
    let given = row.given[i];
    let round = given / 3;
    if given < 12 && given % 6 == 0 {
        if i > 0 {
            send(row, i, i - 1, true, round)?;
        }
        if i < 3 {
            send(row, i, i + 1, false, round)?;
        }
    }
    if given == 12 {
        let first = lent_cell(&row.slots.at[i][0]);
        let second = lent_cell(&row.slots.at[i][1]);
        if first >= 1 << 60 || second >= 1 << 60 {
            return Err("a cell is too large")?;
        }
        let (to_first, to_second) = turn(first, second);
        if !is_small(&row.slots.at[i][0])
            || !is_small(&row.slots.at[i][1])
            || to_first >= 1 << 61
            || to_second >= 1 << 61
        {
            return Err("a slot is too large")?;
        }
        row.slots.at[i][0] = react(row.slots.at[i][0], case.above, to_first);
        row.slots.at[i][1] = react(row.slots.at[i][1], case.above, to_second);
    }
    for f in 0..2usize {
        let slot = row.slots.at[i][f];
        if !is_small(&slot) {
            return Err("a slot is too large")?;
        }
        if given == 14 {
            row.slots.at[i][f] = check(slot, case.idle_at, case.limit);
        } else if given < 12 && given % 6 == 1 {
            fill_place(case, row, i, f, round);
        } else if given < 12 && given % 6 == 2 {
            row.slots.at[i][f] = flux(slot);
        } else if given < 12 && given % 6 == 5 {
            row.slots.at[i][f] = update(slot);
        } else if given != 12 {
            row.slots.at[i][f] = release(slot);
        }
    }
    if given < 12 && given % 6 == 1 {
        row.mail
            .retain(|part| part.round != round || part.block != i as u64);
        row.second_mail
            .retain(|part| part.round != round || part.block != i as u64);
    }
    row.given[i] = given.wrapping_add(1);
    row.out[i] = false;
    Ok(())
}

fn deliver(row: &mut Row, at: usize) -> Result<(), Fail>
    requires { at < vec_len row.old.wire }
{
    let (first, second) = row.wire.swap_remove(at);
    let b = (first.block % 4) as usize;
    row.slots.at[b][0] = come(row.slots.at[b][0], first.total);
    row.slots.at[b][1] = come(row.slots.at[b][1], second.total);
    row.mail.push(first)?;
    row.second_mail.push(second)?;
    Ok(())
}

fn is_done(row: &Row) -> bool {
    row.given.iter().all(|g| *g == 15) && row.wire.is_empty()
}

/// One event that chance draws, where it is legal.
fn try_event(case: &Case, row: &mut Row, drawn: u64) -> Result<(), Fail> {
    let i = (drawn / 3 % 4) as usize;
    if drawn % 3 == 0 {
        if may_take(row, i) {
            row.out[i] = true;
            row.slots.at[i][0] = take(row.slots.at[i][0], true);
            row.slots.at[i][1] = take(row.slots.at[i][1], true);
        }
        Ok(())
    } else if drawn % 3 == 1 {
        if row.out[i] {
            give(case, row, i)
        } else {
            Ok(())
        }
    } else if row.wire.is_empty() {
        Ok(())
    } else {
        let at = (drawn / 3) as usize % row.wire.len();
        deliver(row, at)
    }
}

fn run_by_chance(rt: &HostRuntime, case: &Case, seed: u64) -> Result<Row, Fail> {
    let empty = Slot {
        buffer: None,
        leased: false,
        kept: false,
        idle: 0,
        dropped: 0,
    };
    let alloc = rt.alloc();
    let mut row = Row {
        slots: Slots {
            at: [[empty; 2]; 4],
        },
        given: [0; 4],
        out: [false; 4],
        sent: 0,
        wire: Vec::new(alloc),
        mail: Vec::new(alloc),
        second_mail: Vec::new(alloc),
    };
    for b in 0..4usize {
        for f in 0..2usize {
            row.slots.at[b][f] = first_slot(case, b, f);
        }
    }
    let mut state = seed;
    for _ in 0..20000u32 {
        state = state
            .wrapping_mul(6364136223846793005)
            .wrapping_add(1442695040888963407);
        try_event(case, &mut row, state / 8589934592)?;
        if is_done(&row) {
            return Ok(row);
        }
    }
    Err("the cycle did not end")?
}

fn has_ended_as(row: &Row, run: &Run) -> bool {
    for b in 0..4usize {
        for f in 0..2usize {
            let slot = row.slots.at[b][f];
            let cell = match slot.buffer {
                Some(buffer) => buffer.cell,
                None => 0,
            };
            if slot.buffer.is_some() != run.kept[b][f]
                || slot.kept != run.kept[b][f]
                || cell != run.cells[b][f]
                || slot.idle != run.idle[b][f]
                || slot.dropped != run.dropped[b][f]
            {
                return false;
            }
        }
    }
    true
}

/// Every order ends as the run of whole meshes does: with zero thresholds and others, with inflow and without, with
/// places that come to be kept, that only have scratch buffers, and that are freed.
#[test]
fn every_order_ends_as_the_whole_meshes_do(rt: HostRuntime) -> Result<(), Fail> {
    let plain = Case {
        inflow: [0, 0],
        above: 0,
        idle_at: 0,
        limit: 1,
        idle: 0,
        cells: [[1000, 0], [0, 0], [0, 0], [0, 0]],
    };
    let cases = [
        plain,
        Case {
            inflow: [40, 4],
            ..plain
        },
        Case {
            above: 100,
            idle_at: 60,
            ..plain
        },
        Case {
            above: 250,
            idle_at: 250,
            limit: 2,
            idle: 1,
            cells: [[1000, 3], [0, 0], [0, 0], [250, 0]],
            ..plain
        },
        Case {
            inflow: [8, 100],
            above: 8,
            idle_at: 2,
            limit: 3,
            idle: 1,
            cells: [[0, 0], [9, 1], [0, 0], [64, 0]],
        },
    ];
    for case in &cases {
        let mut run = first_run(case);
        stage(case, &mut run);
        stage(case, &mut run);
        reaction(case, &mut run);
        last_check(case, &mut run);
        for seed in 1..30u64 {
            let row = run_by_chance(&rt, case, seed)?;
            assert!(rt; has_ended_as(&row, &run), "seed {seed}");
        }
    }
    Ok(())
}
