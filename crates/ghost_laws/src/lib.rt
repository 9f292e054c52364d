//! What a mesh sees in the ghost layers of a block, by what stands behind the side: a face of the domain, a leaf of
//! the same level, finer leaves, or a coarser one.
//!
//! The functions carry laws: they have empty bodies, and their contracts are proved.
#![tactic(auto)]

mod laws;

pub use laws::{filled_law, ghost_look_laws, worked_indices};
