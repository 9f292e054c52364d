//! A machine that hands out so many pieces of work, run on real threads.
ghost use Rattle.std.specs.Prelude.{◌≡◌, ◌≤◌, [], ◌∷◌, map, true};

use crate::{Answer, Machine, Outcome, run_workers};
use mesh_outside::{Gate, MeetGate, OpenGate};
use std::alloc::{AllocError, Global};
use std::marker::Sync;
use std::sync::Wait;
use std::test::Fail;
use std::thread::Threads;
use turn_yard::{Entries, NoMemory};

// An entry: the seat, and whether it gave a piece back.
#[derive(Drop)]
struct Note {
    seat: u32,
    back: u32,
}

#[derive(Drop)]
struct Piece {
    number: u32,
}

// Hands out the pieces below `left`, and takes them back.
#[derive(Drop)]
struct Pieces {
    notes: Vec<Note>,
    epochs: Vec<u64>,
    left: u32,
    out: u32,
}

impl Entries for Pieces {
    ghost entries = { λ p. map (λ note. note.seat ∷ note.back ∷ []) p.notes.items };

    ghost origin = { λ p. [] };

    ghost marks = { λ p. p.epochs.items };

    fn mark(&self, p: u32) -> u64 {
        self.epochs[p as usize]
    }
}

// The piece for which a worker has no memory.
#[derive(Drop)]
struct Short {
    number: u32,
}

impl Machine for Pieces {
    type Setting = Short;

    type Notes = Piece;

    type Lease = Piece;

    type Finished = Piece;

    ghost parts = { λ o. 1 };

    ghost suits = { λ s o. true ≡ true };

    ghost complete = { λ o h. true ≡ true };

    ghost noted = { λ n o h. true ≡ true };

    ghost leased = { λ o h s l. true ≡ true };

    ghost worked = { λ s l f. true ≡ true };

    fn parts(&self) -> u32 {
        1
    }

    fn notes(_setting: &Short) -> Result<Piece, NoMemory> {
        Ok(Piece { number: 0 })
    }

    fn drop_stale(_notes: &mut Piece, _partition: u32, _epoch: u64) {}

    fn ask(&mut self, seat: u32, _notes: &Piece) -> Answer<Piece> {
        if self.left == 0 {
            if self.out == 0 {
                return Answer::Done;
            }
            return Answer::NotYet;
        }
        if self.notes.push(Note { seat, back: 0 }).is_err() {
            return Answer::NoMemory;
        }
        self.left -= 1;
        self.out = self.out.saturating_add(1);
        Answer::Lease {
            lease: Piece { number: self.left },
            partition: 0,
            task: self.left,
        }
    }

    fn work(setting: &Short, notes: &mut Piece, lease: Piece) -> Result<Piece, NoMemory> {
        if lease.number == setting.number {
            return Err(NoMemory);
        }
        notes.number = lease.number;
        Ok(lease)
    }

    fn give(&mut self, seat: u32, _done: Piece) -> Result<u32, NoMemory> {
        if self.epochs.is_empty() {
            return Err(NoMemory);
        }
        self.notes.push(Note { seat, back: 1 })?;
        let epoch = self.epochs[0].saturating_add(1);
        self.epochs[0] = epoch;
        self.out = self.out.saturating_sub(1);
        Ok(0)
    }
}

const NONE: u32 = u32::MAX;

// Runs so many pieces by so many workers, where memory is short for one piece.
fn ran<R: Threads + Wait + Sync, G: Gate + Sync>(
    rt: &R,
    alloc: Global,
    pieces: u32,
    workers: u32,
    short: u32,
    gate: &G,
) -> Result<Outcome<Pieces>, NoMemory>
    requires { (1 ≤ workers) × (workers ≤ 64) }
{
    let machine = Pieces {
        notes: Vec::new(alloc),
        epochs: Vec::from_elem(alloc, 0u64, 1)?,
        left: pieces,
        out: 0,
    };
    run_workers(rt, alloc, machine, workers, &Short { number: short }, gate)
}

// Whether each seat's entries are a lease and its return by turns, as many as there were pieces.
fn is_whole(notes: &[Note], pieces: usize) -> bool {
    let mut out = [false; 64];
    let mut backs = 0usize;
    for note in notes {
        let seat = note.seat as usize;
        if seat >= 64 || out[seat] != (note.back == 1) {
            return false;
        }
        out[seat] = note.back == 0;
        if note.back == 1 {
            backs = backs.saturating_add(1);
        }
    }
    backs == pieces && notes.len() == backs.saturating_add(backs)
}

fn all_is_done<R: Threads + Wait + Sync>(rt: &R, alloc: Global, workers: u32) -> bool
    requires { (1 ≤ workers) × (workers ≤ 64) }
{
    match ran(rt, alloc, 300, workers, NONE, &OpenGate) {
        Ok(end) => end.done == workers && is_whole(end.machine.notes.as_slice(), 300),
        Err(_) => false,
    }
}

#[test]
fn the_history_has_each_seats_entries_in_turn(rt: HostRuntime) {
    let alloc = rt.alloc();
    for workers in [1, 2, 4, 64] {
        assert!(rt; all_is_done(&rt, alloc, workers));
    }
}

fn all_stop<R: Threads + Wait + Sync>(rt: &R, alloc: Global, workers: u32) -> bool
    requires { (1 ≤ workers) × (workers ≤ 64) }
{
    match ran(rt, alloc, 300, workers, 150, &OpenGate) {
        Ok(end) => end.done == 0 && !is_whole(end.machine.notes.as_slice(), 300),
        Err(_) => false,
    }
}

#[test]
fn all_stop_where_one_is_short_of_memory(rt: HostRuntime) {
    let alloc = rt.alloc();
    for workers in [1, 2, 4, 64] {
        assert!(rt; all_stop(&rt, alloc, workers));
    }
}

fn meet<R: Threads + Wait + Sync>(rt: &R, alloc: Global, workers: u32, limit: u64) -> bool
    requires { (1 ≤ workers) × (workers ≤ 64) }
{
    let gate = MeetGate::new(limit);
    let end = ran(rt, alloc, 8, workers, NONE, &gate);
    end.is_ok() && gate.met()
}

#[test]
fn two_workers_are_at_work_at_one_time(rt: HostRuntime) {
    let alloc = rt.alloc();
    assert!(rt; meet(&rt, alloc, 2, 2_000_000_000));
    assert!(rt; !meet(&rt, alloc, 1, 1_000));
}
