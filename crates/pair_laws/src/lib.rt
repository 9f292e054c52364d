//! The pairs of the mesh by the rows of a block's list, by either order.
//!
//! The function carries a law: it has an empty body, and its contract is proved.
#![tactic(auto)]

mod laws;

pub use laws::row_pair_law;
