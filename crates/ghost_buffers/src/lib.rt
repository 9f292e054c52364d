//! Ghosts, and the letters that bring them.
//!
//! A block sends a letter across each of its sides to each leaf behind it, with one [`Part`] a field. [`fill`] makes a
//! part of the sender's cells, and [`unfill`] writes the receiver's two layers of ghosts by it: copied from a sender
//! of the same level, summed by a finer one, and divided into shares where the sender is coarser.
#![tactic(auto)]

mod extents;
mod filling;
mod letter;
mod part;
mod unfilling;

pub use cell_lists::{Cells, NoMemory};
pub use filling::fill;
pub use letter::{Letter, Parts};
pub use part::{How, Part};
pub use unfilling::unfill;
