ghost use Rattle.std.specs.Prelude.{◌≡◌, ◌+◌, ◌<◌, ◌≤◌, true, false, [], replicate, All, IfOk, slice_index, slice_set, ◌++◌};
ghost use Rattle.turn_yard.specs.History.{AddsAtMostOne, NoneFalls, OnlyRises, StartsWith, added_to, entries_of};
ghost use Rattle.turn_yard.specs.Yard.{AreAllSeats, Ends, IsOfSeat, fresh_seat};

use crate::entries::Entries;
use crate::memory::NoMemory;
use crate::seat::{Seats, YardSeat};
use crate::steps::{MakeSeat, OneHistory, ReturnSeat};
use crate::turns;
use crate::view::View;
use atomic_table::{Badge, Seat, Table};
use std::alloc::Global;
use std::marker::Model;
use std::mem;
use std::snapshot::Snapshot;
use std::sync::Wait;

/// A value behind a turn, which seats take one at a time. Contracts see which yard it is, the origin of
/// its value, the number of its marks, and how many seats it made.
#[derive(Drop)]
pub struct Yard<T: Entries> {
    table: Table<Option<T>, View, Snapshot<T>, OneHistory, Global>,
    own: Badge<View>,
    made: u32,
    parts: u32,
}

impl<T: Entries> Model for Yard<T> {
    ghost use Rattle.turn_yard.specs.Yard.{YardState};

    ghost Value = { YardState };

    ghost use Rattle.turn_yard.specs.Inside.{yard_state, IsYard};

    ghost view = { λ y. yard_state y.table.shared.table_id y.own.views y.made };

    ghost invariant = { λ y. IsYard y.table.shared.table_id y.own.table_id y.own.id y.own.views y.made y.parts };
}

impl<T: Entries> Yard<T> {
    /// A yard round a value with no entries yet and a mark of 0 for each of `parts` partitions.
    pub fn make(alloc: Global, value: T, parts: u32) -> Result<Yard<T>, NoMemory>
    where
        T: Drop,
        requires some { 1 ≤ parts }
        requires entries { T.entries value ≡ [] }
        requires marks { T.marks value ≡ replicate parts 0 }
        ensures origin { IfOk result (λ yard. yard.origin ≡ T.origin value) }
        ensures parts { IfOk result (λ yard. yard.parts ≡ parts) }
        ensures seats { IfOk result (λ yard. yard.made ≡ 0) }
    {
        let words = turns::words(alloc, parts)?;
        let first = Snapshot::of(&value);
        let mut slots = Vec::new(alloc);
        slots.push(Some(value))?;
        match Table::new(alloc, words.as_slice(), slots, &first) {
            Ok((table, own)) => Ok(Yard {
                table,
                own: own.into_badge(),
                made: 0,
                parts,
            }),
            Err(_) => Err(NoMemory),
        }
    }

    /// The next seat. Seats are numbered from 0.
    pub fn seat_for(&mut self) -> YardSeat<T>
        requires { self.old.made < 64 }
        ensures seat { result ≡ fresh_seat self.old }
        ensures made { self.new ≡ record self.old { made = self.old.made + 1 } }
    {
        let badge = mem::replace(&mut self.own, Badge::blank());
        let mut own = badge.into_seat();
        let seat = self.table.shared.split_seat::<MakeSeat>(&mut own);
        self.own = own.into_badge();
        let number = self.made;
        self.made += 1;
        YardSeat { seat, number }
    }

    /// How many marks the value has.
    pub fn parts(&self) -> u32
        ensures { result ≡ self.now.parts }
    {
        self.parts
    }

    /// Waits for the turn, and takes it with the value. The value's history begins with all that the seat
    /// had seen, and of the seat's own entries it has each once, in order.
    pub fn take_turn<R: Wait>(&self, rt: &R, seat: &mut YardSeat<T>) -> T
        requires yard { seat.old.yard ≡ self.now.id }
        requires free { seat.old.holds ≡ false }
        ensures origin { T.origin result ≡ seat.old.origin }
        ensures seen { StartsWith (T.entries result) seat.old.seen }
        ensures own { entries_of seat.old.number (T.entries result) ≡ seat.old.own }
        ensures marks { NoneFalls seat.old.noted (T.marks result) }
        ensures seat { seat.new ≡ record seat.old { seen = T.entries result; noted = T.marks result; holds = true } }
    {
        turns::take(rt, &self.table.shared, &mut seat.seat, seat.number)
    }

    /// Gives the turn back with the value, to which at most one entry of this seat was added. The mark of
    /// the partition `changed` alone may have risen.
    pub fn give_turn(&self, seat: &mut YardSeat<T>, value: T, changed: Option<u32>)
        requires yard { seat.old.yard ≡ self.now.id }
        requires holds { seat.old.holds ≡ true }
        requires origin { T.origin value ≡ seat.old.origin }
        requires entries { AddsAtMostOne seat.old.number seat.old.seen (T.entries value) }
        requires marks { OnlyRises changed seat.old.noted (T.marks value) }
        ensures { seat.new ≡ record seat.old {
          seen = T.entries value;
          own = seat.old.own
              ++ added_to seat.old.seen (T.entries value);
          noted = T.marks value;
          holds = false;
        } }
    {
        turns::raise(&self.table.shared, &mut seat.seat, &value, changed);
        turns::give(&self.table.shared, &mut seat.seat, value);
    }

    /// The mark of the partition `p`, which is at least each that this seat noted before. Waits for nobody.
    pub fn epoch(&self, seat: &mut YardSeat<T>, p: u32) -> u64
        requires yard { seat.old.yard ≡ self.now.id }
        requires partition { p < self.now.parts }
        ensures later { slice_index seat.old.noted p ≤ result }
        ensures seat { seat.new ≡ record seat.old { noted = slice_set seat.old.noted p result } }
    {
        turns::look(&self.table.shared, &mut seat.seat, p)
    }

    /// The last value, once all seats are back.
    pub fn close(self, seats: Seats<T>) -> T
        requires { AreAllSeats self seats.items }
        ensures origin { T.origin result ≡ self.origin }
        ensures seats { All (Ends (T.entries result) (T.marks result)) seats.items }
        ensures all { All (IsOfSeat self.made) (T.entries result) }
    {
        let Yard {
            table,
            own,
            made: _,
            parts: _,
        } = self;
        let own = turns::returned(&table.shared, own.into_seat(), seats);
        turns::last(table, own)
    }
}
