//! Packs and the notes of them: a list of places that was made at an epoch of a partition is right as
//! long as the partition has that epoch, so it is kept and looked up again.
#![tactic(auto)]

mod notes;
mod pack;

pub use notes::{PackNotes, notes_law};
pub use pack::Pack;
