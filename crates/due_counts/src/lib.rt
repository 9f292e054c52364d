//! How many letters of a stage are due to each list of leaves, counted over a tree.
//!
//! In each stage of a cycle a leaf sends a letter of ghosts to each leaf behind its sides, and one of flux sums to each
//! coarser leaf there. Leaves stand in lists of equal size, as the partitions of a mesh do; [`due_letters`] says how many
//! letters of either kind each list is to read, and how many there are in all.
#![tactic(auto)]

mod counts;
mod letters;
mod walk;

pub use letters::{DueLetters, due_letters};
