//! A cycle of the dense run: its stages, its reaction, its check and its tags, on the tree of the cycle.
//!
//! A [`DenseState`] is a mesh in lists with what is kept on it and the counters of its leaves. [`settle`] takes one to
//! the state after the check, and tells the tags, the flows and the drops of the cycle. What it does is the rules' own
//! cycle: every field stands on every leaf, and what is kept is reckoned beside it. The lists in which it was made serve
//! the next one ([`Room`]).
#![tactic(auto)]

mod check;
mod fields;
mod reaction;
mod room;
mod settling;
mod stages;
mod staging;
mod state;
mod sums;
mod work;

pub use room::Room;
pub use settling::{Settled, settle};
pub use state::{DenseHeld, DenseState};
