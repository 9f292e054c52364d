//! The steps on the yard's table, as functions over the table and a seat of it.
ghost use Rattle.std.specs.Prelude.{◌≡◌, ℕ, ◌+◌, ◌<◌, ◌≤◌, suc, true, false, [], ◌∷◌, ◌++◌, map, replicate, All, Any, IfOk, slice_index, slice_set, length, Some, None};
ghost use Rattle.std.specs.Bool.{OnFalse, OnTrue};
ghost use Rattle.turn_yard.specs.History.{AddsAtMostOne, NoneFalls, OnlyRises, StartsWith, added_to, entries_of};
ghost use Rattle.turn_yard.specs.Inside.{IsNumbered, Keeps, known_of, IsLast};
ghost use Rattle.turn_yard.specs.Steps.{Took, given, holding, noting, noting_all};
ghost use Rattle.turn_yard.specs.Tells.{tells};
ghost use Rattle.turn_yard.specs.Yard.{IsIdleSeat};

use crate::entries::Entries;
use crate::memory::NoMemory;
use crate::seat::{Seats, YardSeat};
use crate::steps::{Give, Look, OneHistory, Raise, ReturnSeat, Take};
use crate::view::View;
use atomic_table::{Shared, Table};
use std::alloc::Global;
use std::hint::spin_loop;
use std::snapshot::Snapshot;
use std::sync::Wait;
use std::thread::yield_now;

pub type Seat<T> = atomic_table::Seat<Option<T>, View>;

pub type Turns<T> = Shared<Option<T>, View, Snapshot<T>, OneHistory>;

// The word of the turn. The word of the partition `p` is `p + 1`.
const TURN: usize = 0;

// Tries for the turn before the thread begins to yield.
const SPINS: u32 = 64;

/// The turn word and the marks, all 0.
pub fn words(alloc: Global, parts: u32) -> Result<Vec<u64>, NoMemory>
    ensures { IfOk result (λ words. words.items ≡ 0 ∷ replicate parts 0) }
{
    Ok(Vec::from_elem(alloc, 0u64, parts as usize + 1)?)
}

// Whether the seat took the turn, and the slot with it.
fn try_take<T: Entries>(shared: &Turns<T>, seat: &mut Seat<T>, number: u32) -> bool
    requires table { (seat.old.table_id ≡ shared.now.table_id) × (0 < shared.now.table_id.words) }
    requires seat { IsNumbered seat.old.me number false [] }
    ensures seat { Keeps seat.old seat.new }
    ensures took { OnTrue result (Took (tells T.entries T.origin T.marks) seat.old.me seat.new.me) }
    ensures not_taken { OnFalse result (seat.new.me ≡ seat.old.me) }
{
    let mine = u64::from(number) + 1;
    shared.compare_exchange::<Take>(seat, TURN, 0, mine) == 0
}

// Moves the value out of the slot, which the seat holds.
fn empty<T: Entries>(shared: &Turns<T>, seat: &mut Seat<T>) -> T
    requires table { seat.old.table_id ≡ shared.now.table_id }
    requires slot { (value : T) × (seat.old.me.1 ≡ (0, Some value) ∷ []) }
    ensures seat { Keeps seat.old seat.new }
    ensures value { seat.old.me.1 ≡ (0, Some result) ∷ [] }
    ensures slot { seat.new.me ≡ (seat.old.me.0, (0, None) ∷ []) }
{
    let slot = shared.exchange(seat, 0, None);
    let Some(value) = slot else { unreachable!() };
    value
}

/// Waits for the turn, and moves the value out.
pub fn take<R: Wait, T: Entries>(rt: &R, shared: &Turns<T>, seat: &mut Seat<T>, number: u32) -> T
    requires table { (seat.old.table_id ≡ shared.now.table_id) × (0 < shared.now.table_id.words) }
    requires seat { IsNumbered seat.old.me number false [] }
    ensures seat { Keeps seat.old seat.new }
    ensures after { seat.new.me ≡ (holding seat.old.me.0 (T.entries result) (T.marks result), (0, None) ∷ []) }
    ensures origin { T.origin result ≡ seat.old.me.0.known.origin }
    ensures seen { StartsWith (T.entries result) seat.old.me.0.known.seen }
    ensures own { entries_of seat.old.me.0.known.number (T.entries result) ≡ seat.old.me.0.known.own }
    ensures noted { NoneFalls seat.old.me.0.known.noted (T.marks result) }
{
    let mut tries = 0u32;
    for _ in rt.forever() {
        if try_take(shared, seat, number) {
            return empty(shared, seat);
        }
        if tries < SPINS {
            tries += 1;
            spin_loop();
        } else {
            yield_now();
        }
    }
    unreachable!()
}

/// Raises the word of the mark that has risen.
pub fn raise<T: Entries>(shared: &Turns<T>, seat: &mut Seat<T>, value: &T, changed: Option<u32>)
    requires table { (seat.old.table_id ≡ shared.now.table_id)
        × (suc (length seat.old.me.0.known.noted) ≡ shared.now.table_id.words) }
    requires seat { (seat.old.me.0.in_use ≡ true) × (seat.old.me.0.holds ≡ true) }
    requires marks { OnlyRises changed seat.old.me.0.known.noted (T.marks value.now) }
    ensures seat { Keeps seat.old seat.new }
    ensures after { seat.new.me ≡ (noting_all seat.old.me.0 (T.marks value.now), seat.old.me.1) }
{
    if let Some(p) = changed {
        shared.store::<Raise>(seat, p as usize + 1, value.mark(p));
    }
}

/// Moves the value in, and gives the turn back.
pub fn give<T: Entries>(shared: &Turns<T>, seat: &mut Seat<T>, value: T)
    requires table { (seat.old.table_id ≡ shared.now.table_id) × (0 < shared.now.table_id.words) }
    requires seat { (seat.old.me.0.in_use ≡ true) × (seat.old.me.0.holds ≡ true) × (seat.old.me.1 ≡ (0, None) ∷ []) }
    requires origin { T.origin value ≡ seat.old.me.0.known.origin }
    requires entries { AddsAtMostOne seat.old.me.0.known.number seat.old.me.0.known.seen (T.entries value) }
    requires marks { T.marks value ≡ seat.old.me.0.known.noted }
    ensures seat { Keeps seat.old seat.new }
    ensures after { seat.new.me ≡ (given seat.old.me.0 (T.entries value), []) }
{
    let slot = shared.exchange(seat, 0, Some(value));
    let None = slot else { unreachable!() };
    shared.store::<Give>(seat, TURN, 0);
}

/// Reads the word of a mark.
pub fn look<T: Entries>(shared: &Turns<T>, seat: &mut Seat<T>, p: u32) -> u64
    requires table { (seat.old.table_id ≡ shared.now.table_id)
        × (suc (length seat.old.me.0.known.noted) ≡ shared.now.table_id.words) }
    requires seat { seat.old.me.0.in_use ≡ true }
    requires partition { p < length seat.old.me.0.known.noted }
    ensures seat { Keeps seat.old seat.new }
    ensures after { seat.new.me ≡ (noting seat.old.me.0 p result, seat.old.me.1) }
    ensures later { slice_index seat.old.me.0.known.noted p ≤ result }
{
    shared.load::<Look>(seat, p as usize + 1)
}

/// The yard's own seat, which keeps what all these seats knew.
pub fn returned<T: Entries>(shared: &Turns<T>, mut own: Seat<T>, mut seats: Seats<T>) -> Seat<T>
    requires table { (own.table_id ≡ shared.now.table_id) × (own.id ≡ 0) × (0 < shared.now.table_id.words) }
    requires own { (own.me.0.in_use ≡ false) × (own.me.1 ≡ []) × (own.me.0.returned ≡ []) }
    requires seats { All (IsIdleSeat shared.now.table_id) seats.items }
    ensures seat { Keeps own result }
    ensures after { result.me ≡ (record own.me.0 { returned = map known_of seats.items }, []) }
{
    while let Some(seat) = seats.pop() {
        let YardSeat { seat, number: _ } = seat;
        shared.join_seat::<ReturnSeat>(&mut own, seat);
    }
    own
}

/// The value at home, once all seats are back.
pub fn last<T: Entries>(
    table: Table<Option<T>, View, Snapshot<T>, OneHistory, Global>,
    own: Seat<T>,
) -> T
    requires table { (own.table_id ≡ table.shared.table_id) × (own.id ≡ 0) × (table.shared.table_id.slots ≡ 1) }
    requires all { (number : ℕ) → number < own.me.0.made → Any (λ known. known.number ≡ number) own.me.0.returned }
    ensures { IsLast (tells T.entries T.origin T.marks) own.me.0 result }
{
    let mut closed = table.close_with(own);
    let slot = closed.take(0);
    closed.free();
    let Some(value) = slot else { unreachable!() };
    value
}
