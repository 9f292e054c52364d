//! The input of a call: from the bytes of a file and the overrides to a problem, or the first fault.
//!
//! - `accept_bytes` reads a deck, applies the overrides in order, and reads the problem.
//! - `accept_seed` does so for the deck that is made of a seed.
//! - `accept_file` does so for a file of a depot, which it reads in pieces.
#![tactic(auto)]

mod fault;
mod file;
mod input;

pub use fault::{InputFault, Refusal};
pub use file::accept_file;
pub use input::{Input, accept_bytes, accept_seed};
