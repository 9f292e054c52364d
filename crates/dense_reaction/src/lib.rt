//! A kernel in all cells of a whole mesh in lists.
//!
//! [`react`] works leaf by leaf on a copy of the leaf's totals, so that the mesh stays as it is where memory runs out.
//! Cells of zeros are left alone. [`MeshReaction`] is what a cycle asks of a reaction: a kernel that is applied in each
//! cell, or none, which costs nothing.
#![tactic(auto)]

mod block;
mod cell;
mod mesh;
mod mesh_reaction;

pub use mesh::{ReactedMesh, react};
pub use mesh_reaction::{InCells, MeshReaction, NoReaction};
