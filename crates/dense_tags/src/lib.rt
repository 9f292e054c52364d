//! What the leaves of a whole mesh in lists wish, and their tags.
//!
//! [`tags`] asks each criterion of a problem for its wish on each leaf, and settles the strongest by how often in a
//! row the leaf has wished to derefine.
#![tactic(auto)]

mod leaf_wishes;
mod tagging;

pub use tagging::{TagsOfLeaves, tags};
