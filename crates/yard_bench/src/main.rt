//! Takes and gives a turn 8,388,608 times in all, by as many workers as standard input says, each in a thread of its
//! own; 0 is this thread alone. Prints how many turns the value counted; `bench/turns.sh` measures the time.
#![tactic(auto)]

ghost use Rattle.std.specs.Prelude.{◌≡◌, ◌≤◌, [], All, IfOk, false, length, replicate};
ghost use Rattle.yard_bench.specs.Free.{IsFree};

use std::alloc::Global;
use std::marker::Sync;
use std::sync::Wait;
use std::thread::Threads;
use std::{io, thread};
use turn_yard::{Entries, NoMemory, Yard, YardSeat};

const TURNS: u32 = 8_388_608;

/// A value with no entries and one mark, which counts its turns.
#[derive(Drop)]
struct Counter {
    marks: Vec<u64>,
    turns: u64,
}

impl Entries for Counter {
    ghost entries = { λ c. [] };

    ghost origin = { λ c. [] };

    ghost marks = { λ c. c.marks.items };

    fn mark(&self, p: u32) -> u64 {
        self.marks[p as usize]
    }
}

fn main(rt: HostRuntime) -> io::Result<()> {
    let mut line = String::new(rt.alloc());
    rt.read_line(&mut line)?;
    let workers = line.trim().parse::<u32>().unwrap_or(0).min(32);
    match counted(&rt, rt.alloc(), workers) {
        Ok(turns) => println!(rt; "{workers} workers, {turns} turns"),
        Err(_) => println!(rt; "no memory"),
    }
}

/// How many turns the value counted.
fn counted<R: Threads + Wait + Sync>(rt: &R, alloc: Global, workers: u32) -> Result<u64, NoMemory>
    requires { workers ≤ 32 }
{
    let value = Counter {
        marks: Vec::from_elem(alloc, 0u64, 1)?,
        turns: 0,
    };
    let mut yard = Yard::make(alloc, value, 1)?;
    let mut seats = seated(alloc, &mut yard, workers)?;
    if workers == 0 {
        let mut seat = yard.seat_for();
        turns_of(rt, &yard, &mut seat, TURNS);
    } else {
        all_turns(rt, &yard, seats.as_mut_slice(), TURNS / workers);
    }
    let mut reader = yard.seat_for();
    let value = yard.take_turn(rt, &mut reader);
    let turns = value.turns;
    yard.give_turn(&mut reader, value, None);
    Ok(turns)
}

/// The first seats of a yard.
fn seated(
    alloc: Global,
    yard: &mut Yard<Counter>,
    count: u32,
) -> Result<Vec<YardSeat<Counter>>, NoMemory>
    requires fresh { yard.old.made ≡ 0 }
    requires count { count ≤ 32 }
    ensures made { IfOk result (λ s. yard.new.made ≡ count) }
    ensures seats { IfOk result (λ s. All (IsFree yard.new) s.items) }
{
    let mut seats = Vec::new(alloc);
    for _ in 0..count {
        let seat = yard.seat_for();
        seats.push(seat)?;
    }
    Ok(seats)
}

/// So many turns of each seat.
fn all_turns<R: Threads + Wait + Sync>(
    rt: &R,
    yard: &Yard<Counter>,
    seats: &mut [YardSeat<Counter>],
    count: u32,
)
    requires { All (IsFree yard.now) seats.old }
{
    let threads = seats.len().max(1);
    thread::for_each_mut(
        rt,
        seats,
        threads,
        &|_, seat: &mut YardSeat<Counter>|
            requires { IsFree yard.now seat.old }
        { turns_of(rt, yard, seat, count) },
    );
}

/// So many turns of one seat.
fn turns_of<R: Wait>(rt: &R, yard: &Yard<Counter>, seat: &mut YardSeat<Counter>, count: u32)
    requires { IsFree yard.now seat.old }
    ensures { IsFree yard.now seat.new }
{
    for _ in 0..count {
        let mut value = yard.take_turn(rt, seat);
        value.turns = value.turns.wrapping_add(1);
        yard.give_turn(seat, value, None);
    }
}
