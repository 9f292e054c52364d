//! The state of a mesh between and during cycles: its tree, and what is stored of each field on the blocks where it is
//! allocated.
//!
//! A [`MeshState`] finds the buffer of a field on a block in one step, and takes memory only for fields that are
//! allocated. A buffer may be lent, so that it is changed outside, and comes back to its place. Leaves lie in
//! partitions that follow one another; each counts how often a place came or went.
#![tactic(auto)]

mod interior;
mod kept;
mod laws;
mod opening;
mod shelf_lists;
mod shelves;
mod stamping;
mod state;
mod store;

pub use laws::state_laws;
pub use state::MeshState;
