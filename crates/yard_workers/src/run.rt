//! A machine, run by workers from its beginning to its end.
ghost use Rattle.std.specs.Prelude.{◌≡◌, ◌<◌, ◌≤◌, ◌+◌, [], All, Any, IfOk, length, replicate, vec_len, vec_capacity};
ghost use Rattle.turn_yard.specs.Yard.{AreAllSeats, IsOfSeat};
ghost use Rattle.yard_workers.specs.Machine.{Was};
ghost use Rattle.yard_workers.specs.Run.{AreSeated, HaveEnded, done_of};

use crate::machine::Machine;
use crate::shared::Shared;
use crate::worker::{End, Worker, work_all};
use mesh_outside::Gate;
use std::alloc::Global;
use std::marker::Sync;
use std::sync::Wait;
use std::thread::Threads;
use turn_yard::{NoMemory, Seats, Yard};

/// A machine at its end.
#[derive(Drop)]
pub struct Outcome<M: Machine> {
    /// The machine, as the workers left it.
    pub machine: M,
    /// How many workers ended because the machine said that its history is complete. The others stopped.
    pub done: u32,
}

/// Puts a machine behind a turn, and has it run by `count` workers, 1 to 64, each in a thread of its own where one can
/// be made. Answers the machine once all have ended. `NoMemory` comes where there is none for the yard and its seats.
pub fn run_workers<R: Threads + Wait + Sync, M: Machine, G: Gate + Sync>(
    rt: &R,
    alloc: Global,
    machine: M,
    count: u32,
    setting: &M::Setting,
    gate: &G,
) -> Result<Outcome<M>, NoMemory>
    requires count { (1 ≤ count) × (count ≤ 64) }
    requires entries { M.entries machine ≡ [] }
    requires parts { 1 ≤ M.parts (M.origin machine) }
    requires marks { M.marks machine ≡ replicate (M.parts (M.origin machine)) 0 }
    requires setting { M.suits setting.now (M.origin machine) }
    ensures origin { IfOk result (λ end. M.origin end.machine ≡ M.origin machine) }
    ensures seats { IfOk result (λ end. All (IsOfSeat count) (M.entries end.machine)) }
    ensures done { IfOk result (λ end. 0 < end.done → Was (M.complete (M.origin machine)) (M.entries end.machine)) }
    ensures at_most { IfOk result (λ end. end.done ≤ count) }
{
    let parts = machine.parts();
    let shared = Shared {
        machine,
        stopped: false,
    };
    let mut yard = Yard::make(alloc, shared, parts)?;
    let mut seats = Vec::with_capacity(alloc, count as usize)?;
    let mut workers = seated(alloc, &mut yard, count)?;
    work_all(rt, &yard, workers.as_mut_slice(), setting, gate);
    let done = collected(&yard, workers, &mut seats);
    let Shared {
        machine,
        stopped: _,
    } = yard.close(seats);
    Ok(Outcome { machine, done })
}

// A worker at each of the first seats of a yard.
fn seated<M: Machine>(
    alloc: Global,
    yard: &mut Yard<Shared<M>>,
    count: u32,
) -> Result<Vec<Worker<M>>, NoMemory>
    requires fresh { yard.old.made ≡ 0 }
    requires count { count ≤ 64 }
    ensures yard { IfOk result (λ w. yard.new ≡ record yard.old { made = count }) }
    ensures workers { IfOk result (λ w. AreSeated (λ worker. worker.seat) yard.new w.items) }
{
    let mut workers = Vec::with_capacity(alloc, count as usize)?;
    for _ in 0..count {
        let seat = yard.seat_for();
        workers.push(Worker { seat, end: None })?;
    }
    Ok(workers)
}

// The seats of workers that have ended, and how many of these ended as done. The yard is there for what it is.
fn collected<M: Machine>(
    yard: &Yard<Shared<M>>,
    mut workers: Vec<Worker<M>>,
    seats: &mut Seats<Shared<M>>,
) -> u32
    requires room { vec_len seats.old + vec_len workers ≤ vec_capacity seats.old }
    requires few { yard.now.made ≤ 64 }
    requires ended { HaveEnded (M.complete yard.now.origin) yard.now (λ worker. worker.seat)
        (λ worker. worker.end) workers.items seats.old.items 0 }
    ensures seats { AreAllSeats yard.now seats.new.items }
    ensures done { 0 < result → Any (λ seat. Was (M.complete yard.now.origin) seat.seen) seats.new.items }
    ensures at_most { result ≤ yard.now.made }
{
    let mut done = 0;
    while let Some(worker) = workers.pop() {
        let Worker { seat, end } = worker;
        done += is_done(end);
        seats.push_reserved(seat);
    }
    done
}

// 1 for a worker that ended as done, else 0.
fn is_done(end: Option<End>) -> u32
    ensures { result ≡ done_of end }
{
    match end {
        Some(End::Done) => 1,
        _ => 0,
    }
}
