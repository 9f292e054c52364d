//! The run of a problem into a depot: the dumps of its cycles, one file after another.
//!
//! - `drive` runs a problem to its last cycle, and writes a dump at the opening, at each cycle whose
//!   number is a multiple of the problem's `dump_every`, and at the last cycle.
#![tactic(auto)]

mod dumps;
mod fault;
mod run;

pub use fault::DriveFault;
pub use run::{RunEnd, drive};
