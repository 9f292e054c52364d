//! The state with which a cycle starts, kept beside a mesh state that goes on to change.
//!
//! An [`Opening`] is a copy of what a mesh state stands for: the totals of the blocks' own cells, which fields are
//! allocated with their idle counts, and the tag counters. It shares the tree, and holds no ghosts and nothing of what
//! passes faces. Contracts see it as that state of the rules.
#![tactic(auto)]

mod leaf_fields;
mod opening;

pub use opening::Opening;
