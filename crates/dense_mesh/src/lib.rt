//! A whole mesh in lists: for each field, for each leaf, the totals of its cells, x1 fastest.
//!
//! `specs/` says which mesh such lists are, which slots a mask has, and what lists of blocks with ghosts show of a
//! mesh. The functions of `laws` have empty bodies: their contracts are proved.
#![tactic(auto)]

mod laws;
mod totals;

pub use laws::{field_lists_law, mesh_law};
pub use totals::{FieldSlots, FieldTotals, Slot};
