//! Workers that run one machine: each asks for a piece of work under the turn, does it without the turn, and gives it
//! back.
//!
//! - `Machine` is what the workers run: a value with a history, which hands out leases and takes the finished work back.
//! - `Shared` is the machine behind the turn of a yard, with the mark that memory was short.
//! - `work` is the loop of one worker at its seat, and `work_all` starts a thread for each worker and waits for them.
//! - `run_workers` puts a machine behind a turn, has it run by a number of workers, and answers it at its end.
//!
//! Whatever the schedule, the machine finds one history, in which each seat's own entries stand once and in order. So
//! a lease that a worker got is still out when it gives the work back, and the notes of a worker stay true.
#![tactic(auto)]

mod machine;
mod run;
mod shared;
#[cfg(test)]
mod tests;
mod turn;
mod worker;

pub use machine::{Answer, Machine};
pub use run::{Outcome, run_workers};
pub use shared::Shared;
pub use worker::{End, Worker, work, work_all};
