//! One value behind a turn: whoever holds the turn has the value, and all agree on its history.
//!
//! - `Yard` keeps a value that threads take by turns. `take_turn` waits for the turn and moves the
//!   value out; `give_turn` moves it back, with at most one entry added to its history.
//! - `YardSeat` is what one worker takes turns with. It has a number, which its entries bear, and
//!   contracts see what it has seen of the history, which entries are its own, and which marks it noted.
//! - `Entries` is what a value tells of itself: its history, its origin, which never changes, and a mark
//!   for each partition, which never falls. `Yard::epoch` reads a mark without the turn.
//! - Every schedule of turns makes one history: each holder finds all that it had seen at its front, and
//!   of its own entries each once, in order.
//!
//! The value is moved in and out of a slot of the crate `atomic_table`, whose words are the turn and the
//! marks; `specs/Rule.antt` is the fact that holds between any two atomic steps on them.
#![tactic(auto)]

mod entries;
mod memory;
mod seat;
mod steps;
#[cfg(test)]
mod tests;
mod turns;
mod view;
mod yard;

pub use entries::Entries;
pub use memory::NoMemory;
pub use seat::{Seats, YardSeat};
pub use yard::Yard;
