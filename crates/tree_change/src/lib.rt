//! The next tree: what the tags of the leaves make of a tree of blocks.
#![tactic(auto)]

mod next;
mod wanted;

pub use block_tree::Tag;
pub use next::next_tree;
