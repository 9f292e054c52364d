//! Tags of leaves, by what their criteria wish.
//!
//! [`wish_of`] measures a block's own cells by a criterion and tells what that wishes. Of several wishes the strongest
//! counts, by [`stronger`]. [`settle`] makes a leaf's tag of its wish: a leaf is refined at once, and may merge once
//! it has wished to derefine often enough in a row.
#![tactic(auto)]

mod measures;
mod rows;
mod settling;
mod wishes;

pub use block_tree::Tag;
pub use measures::{own_cells, wish_of};
pub use mesh_rules::Wish;
pub use settling::{Settled, settle};
pub use wishes::stronger;
