//! What a mask keeps of a whole mesh in lists.
//!
//! A mask in lists has for each field and each leaf a slot: whether the field is kept there, and at how many checks in
//! a row it was idle. The calls follow a cycle: the mask at the start, after an exchange, after a reaction and after a
//! check; [`cut`] makes zero what does not stay, and tells how much that was.
#![tactic(auto)]

mod cutting;
mod fields;
mod keeping;
mod slots;
mod totals;

pub use cutting::{CutMesh, cut};
pub use fields::is_sparse;
pub use keeping::{keep_by_check, keep_by_exchange, keep_by_reaction};
pub use slots::{blocks_with, kept_at_start};
pub use totals::field_total;
