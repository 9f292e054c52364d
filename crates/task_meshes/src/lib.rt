//! The mesh on which tasks exchange letters, and what they look up in it.
//!
//! A [`TaskMesh`] is a problem, a tree and the layout of the blocks. Contracts see it as a mesh of a cycle
//! (`mesh_of`), of which the kernels of an exchange read the settings, the tree and the layout.
//!
//! | Call | What it answers |
//! |---|---|
//! | [`blocks_of`] | the blocks of a list of tasks |
//! | [`way_between`] | how the sender of a letter stands to its receiver, and over which part of a side |
//! | [`is_outside`] | whether a side of a block is a face of the domain |
//! | [`first_at`], [`bufs_of`] | where the buffers of a block stand among buffers by block, then field |
#![tactic(auto)]

mod blocks;
mod buf_order;
mod kind;
mod laws;
mod mesh;
mod ways;

pub use blocks::{Blocks, blocks_of, is_outside};
pub use buf_order::{BufRange, bufs_of, first_at};
pub use kind::LetterKind;
pub use laws::mesh_law;
pub use mesh::TaskMesh;
pub use ways::{Way, way_between};
