//! That the reader of problems accepts each deck that is made of a seed, and the problem of such a deck.
#![tactic(auto)]

mod accepted;

pub use accepted::{generated_decks_are_accepted, generated_problem};
