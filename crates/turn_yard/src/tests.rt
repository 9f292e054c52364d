//! A log of notes behind a turn.
ghost use Rattle.std.specs.Prelude.{◌≡◌, ◌<◌, [], ◌∷◌, map, length, replicate, IfOk, Some};
ghost use Rattle.turn_yard.specs.History.{AddsAtMostOne, OnlyRises};

use crate::{Entries, NoMemory, Yard};
use std::alloc::{AllocError, Global};
use std::test::Fail;

#[derive(Drop)]
struct Note {
    seat: u32,
    what: u32,
}

#[derive(Drop)]
struct Log {
    notes: Vec<Note>,
    epochs: Vec<u64>,
}

impl Entries for Log {
    ghost entries = { λ log. map (λ note. note.seat ∷ note.what ∷ []) log.notes.items };

    ghost origin = { λ log. [] };

    ghost marks = { λ log. log.epochs.items };

    fn mark(&self, p: u32) -> u64 {
        self.epochs[p as usize]
    }
}

impl Log {
    fn new(alloc: Global, parts: u32) -> Result<Log, AllocError>
        ensures notes { IfOk result (λ log. log.notes.items ≡ []) }
        ensures epochs { IfOk result (λ log. log.epochs.items ≡ replicate parts 0) }
    {
        let epochs = Vec::from_elem(alloc, 0u64, parts as usize)?;
        Ok(Log {
            notes: Vec::new(alloc),
            epochs,
        })
    }

    // Adds a note, where there is memory for it, and raises the epoch of the partition.
    fn note(&mut self, seat: u32, what: u32, p: u32) -> Result<(), AllocError>
        requires { p < length self.old.epochs.items }
        ensures notes { AddsAtMostOne seat (map (λ note. note.seat ∷ note.what ∷ []) self.old.notes.items)
            (map (λ note. note.seat ∷ note.what ∷ []) self.new.notes.items) }
        ensures epochs { OnlyRises (Some p) self.old.epochs.items self.new.epochs.items }
    {
        let epoch = self.epochs[p as usize].saturating_add(1);
        self.epochs[p as usize] = epoch;
        self.notes.push(Note { seat, what })?;
        Ok(())
    }
}

#[test]
fn a_raised_mark_is_seen_without_the_turn(rt: HostRuntime) -> Result<(), Fail> {
    let alloc = rt.alloc();
    let mut yard = Yard::make(alloc, Log::new(alloc, 2)?, 2)?;
    let mut first = yard.seat_for();
    let mut second = yard.seat_for();
    let before = [yard.epoch(&mut first, 0), yard.epoch(&mut second, 0)];
    let mut log = yard.take_turn(&rt, &mut first);
    log.note(first.number(), 7, 0)?;
    yard.give_turn(&mut first, log, Some(0));
    let own = [yard.epoch(&mut first, 0), yard.epoch(&mut first, 1)];
    let others = [yard.epoch(&mut second, 0), yard.epoch(&mut second, 1)];
    assert!(rt; before == [0, 0] && own == [1, 0] && others == [1, 0]);
    let log = yard.take_turn(&rt, &mut second);
    assert!(rt; log.notes.len() == 1 && second.number() == 1);
    yard.give_turn(&mut second, log, None);
    Ok(())
}
