//! The letters that the tasks of a stage send.
//!
//! A task that sends ghosts or flux sums makes a letter across each side of each block of its list to each leaf that is
//! due one: ghosts to all leaves behind the side, flux sums to a coarser one. [`send_letters`] makes them in the order
//! in which they are due, each with a part for each of the buffers that its block was lent.
#![tactic(auto)]

mod block_sender;
mod parts;
mod receivers;
mod sending;

pub use sending::{Letters, send_letters};
