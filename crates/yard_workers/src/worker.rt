//! The loop of one worker, and of all.
ghost use Rattle.std.specs.Prelude.{◌≡◌, ℕ, ◌<◌, All, IfSome, length, slice_index_or};
ghost use Rattle.yard_workers.specs.Machine.{Was};
ghost use Rattle.yard_workers.specs.Worker.{Ended, HasWorked, IsBetweenTurns, IsLater};

use crate::machine::Machine;
use crate::shared::Shared;
use crate::turn;
use crate::turn::Next;
use mesh_outside::Gate;
use std::marker::{Send, Sync};
use std::sync::Wait;
use std::thread;
use std::thread::Threads;
use turn_yard::{Yard, YardSeat};

/// How a worker ended.
#[derive(Clone, Copy, Debug, PartialEq, Eq)]
pub enum End {
    /// The machine said that its history is complete.
    Done,
    /// Memory was short, here or at another worker.
    Stopped,
}

/// A worker at its seat. It ended so, or has not begun.
#[derive(Drop)]
pub struct Worker<M: Machine> {
    pub seat: YardSeat<Shared<M>>,
    pub end: Option<End>,
}

/// The loop of one worker: it asks for work under the turn, passes the gate and works without the turn, and gives the
/// work back under the turn.
#[tactic(auto, using(crate::proofs::Later::later_on, crate::proofs::Later::later_same, crate::proofs::Later::was_first))]
pub fn work<R: Wait, M: Machine, G: Gate>(
    rt: &R,
    yard: &Yard<Shared<M>>,
    seat: &mut YardSeat<Shared<M>>,
    setting: &M::Setting,
    gate: &G,
) -> End
    requires seat { IsBetweenTurns yard.now seat.old }
    requires parts { yard.now.parts ≡ M.parts yard.now.origin }
    requires setting { M.suits setting.now yard.now.origin }
    ensures seat { IsLater yard.now seat.old seat.new }
    ensures end { Ended (M.complete yard.now.origin) seat.new.seen result }
{
    let Ok(mut notes) = M::notes(setting) else {
        turn::stop(rt, yard, seat);
        return End::Stopped;
    };
    for _ in rt.forever() {
        if let Some(end) = round(rt, yard, seat, setting, gate, &mut notes) {
            return end;
        }
    }
    unreachable!()
}

// One lease, or one question that gave none.
fn round<R: Wait, M: Machine, G: Gate>(
    rt: &R,
    yard: &Yard<Shared<M>>,
    seat: &mut YardSeat<Shared<M>>,
    setting: &M::Setting,
    gate: &G,
    notes: &mut M::Notes,
) -> Option<End>
    requires seat { IsBetweenTurns yard.now seat.old }
    requires parts { yard.now.parts ≡ M.parts yard.now.origin }
    requires setting { M.suits setting.now yard.now.origin }
    requires notes { Was (M.noted notes.old yard.now.origin) seat.old.seen }
    ensures seat { IsLater yard.now seat.old seat.new }
    ensures notes { Was (M.noted notes.new yard.now.origin) seat.new.seen }
    ensures end { IfSome result (Ended (M.complete yard.now.origin) seat.new.seen) }
{
    match turn::ask(rt, yard, seat, notes) {
        Next::Work {
            lease,
            partition,
            task,
        } => {
            gate.enter(task);
            let Ok(done) = M::work(setting, notes, lease) else {
                turn::stop(rt, yard, seat);
                return Some(End::Stopped);
            };
            let end = turn::give(rt, yard, seat, done);
            let epoch = yard.epoch(seat, partition);
            M::drop_stale(notes, partition, epoch);
            end
        }
        Next::Again => None,
        Next::Ends(end) => Some(end),
    }
}

/// Has all workers work, each in a thread of its own where one can be made, and waits for them.
pub fn work_all<R: Threads + Wait + Sync, M: Machine + Send, G: Gate + Sync>(
    rt: &R,
    yard: &Yard<Shared<M>>,
    workers: &mut [Worker<M>],
    setting: &M::Setting,
    gate: &G,
)
    requires some { 0 < length workers.old }
    requires seats { All (λ w. IsBetweenTurns yard.now w.seat) workers.old }
    requires parts { yard.now.parts ≡ M.parts yard.now.origin }
    requires setting { M.suits setting.now yard.now.origin }
    ensures count { length workers.new ≡ length workers.old }
    ensures each { (i : ℕ) (d : _) → i < length workers.old
        → HasWorked (M.complete yard.now.origin) yard.now (slice_index_or workers.old i d).seat
        (slice_index_or workers.new i d).seat (slice_index_or workers.new i d).end }
{
    let threads = workers.len();
    thread::for_each_mut(
        rt,
        workers,
        threads,
        &|_, worker: &mut Worker<M>|
            requires { IsBetweenTurns yard.now worker.old.seat × (yard.now.parts ≡ M.parts yard.now.origin)
                × M.suits setting.now yard.now.origin }
            ensures { HasWorked (M.complete yard.entry.now.origin) yard.entry.now worker.old.seat worker.new.seat
                worker.new.end }
        { one(rt, yard, worker, setting, gate) },
    );
}

// The work of one worker.
fn one<R: Wait, M: Machine, G: Gate>(
    rt: &R,
    yard: &Yard<Shared<M>>,
    worker: &mut Worker<M>,
    setting: &M::Setting,
    gate: &G,
)
    requires seat { IsBetweenTurns yard.now worker.old.seat }
    requires parts { yard.now.parts ≡ M.parts yard.now.origin }
    requires setting { M.suits setting.now yard.now.origin }
    ensures { HasWorked (M.complete yard.now.origin) yard.now worker.old.seat worker.new.seat worker.new.end }
{
    worker.end = Some(work(rt, yard, &mut worker.seat, setting, gate));
}
