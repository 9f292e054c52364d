//! Lists of totals.
//!
//! The totals of a field in the cells of a block, what passes its faces, and the numbers in a letter are each a
//! [`Cells`]: a list of numbers that contracts see as such, so that the room it keeps never shows.
#![tactic(auto)]

mod cells;

pub use cells::Cells;
pub use mesh_num::NoMemory;
