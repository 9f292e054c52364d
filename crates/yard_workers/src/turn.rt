//! The turns of one worker: it asks, it gives back, or it stops.
ghost use Rattle.std.specs.Prelude.{◌≡◌, IfSome};
ghost use Rattle.yard_workers.specs.Machine.{IsReturned, Was};
ghost use Rattle.yard_workers.specs.Worker.{Ended, IsBetweenTurns, IsLater, IsNext};

use crate::machine::{Answer, Machine};
use crate::shared::Shared;
use crate::worker::End;
use std::sync::Wait;
use std::thread::yield_now;
use turn_yard::{Yard, YardSeat};

/// What a worker does after it asked.
#[derive(Drop)]
pub enum Next<L> {
    /// It works the lease, which is of this partition and this task.
    Work { lease: L, partition: u32, task: u32 },
    /// It asks again.
    Again,
    /// It ends.
    Ends(End),
}

/// Asks for work, in one turn.
pub fn ask<R: Wait, M: Machine>(
    rt: &R,
    yard: &Yard<Shared<M>>,
    seat: &mut YardSeat<Shared<M>>,
    notes: &M::Notes,
) -> Next<M::Lease>
    requires seat { IsBetweenTurns yard.now seat.old }
    requires parts { yard.now.parts ≡ M.parts yard.now.origin }
    requires notes { Was (M.noted notes.now yard.now.origin) seat.old.seen }
    ensures seat { IsLater yard.now seat.old seat.new }
    ensures next { IsNext M.leased M.complete M.parts seat.new result }
{
    let mut shared = yard.take_turn(rt, seat);
    if shared.stopped {
        yard.give_turn(seat, shared, None);
        return Next::Ends(End::Stopped);
    }
    match shared.machine.ask(seat.number(), notes) {
        Answer::Lease {
            lease,
            partition,
            task,
        } => {
            yard.give_turn(seat, shared, None);
            Next::Work {
                lease,
                partition,
                task,
            }
        }
        Answer::Delivered { partition } => {
            yard.give_turn(seat, shared, Some(partition));
            Next::Again
        }
        Answer::NotYet => {
            yard.give_turn(seat, shared, None);
            yield_now();
            Next::Again
        }
        Answer::Done => {
            yard.give_turn(seat, shared, None);
            Next::Ends(End::Done)
        }
        Answer::NoMemory => {
            shared.stopped = true;
            yard.give_turn(seat, shared, None);
            Next::Ends(End::Stopped)
        }
    }
}

/// Gives back what was made of a lease, in one turn. The worker ends where memory was short.
pub fn give<R: Wait, M: Machine>(
    rt: &R,
    yard: &Yard<Shared<M>>,
    seat: &mut YardSeat<Shared<M>>,
    done: M::Finished,
) -> Option<End>
    requires seat { IsBetweenTurns yard.now seat.old }
    requires work { IsReturned M.suits M.leased M.worked yard.now.origin seat.old.number seat.old.seen done }
    ensures seat { IsLater yard.now seat.old seat.new }
    ensures end { IfSome result (Ended (M.complete yard.now.origin) seat.new.seen) }
{
    let mut shared = yard.take_turn(rt, seat);
    match shared.machine.give(seat.number(), done) {
        Ok(partition) => {
            yard.give_turn(seat, shared, Some(partition));
            None
        }
        Err(_) => {
            shared.stopped = true;
            yard.give_turn(seat, shared, None);
            Some(End::Stopped)
        }
    }
}

/// Has all workers stop, in one turn.
pub fn stop<R: Wait, M: Machine>(rt: &R, yard: &Yard<Shared<M>>, seat: &mut YardSeat<Shared<M>>)
    requires seat { IsBetweenTurns yard.now seat.old }
    ensures seat { IsLater yard.now seat.old seat.new }
{
    let mut shared = yard.take_turn(rt, seat);
    shared.stopped = true;
    yard.give_turn(seat, shared, None);
}
