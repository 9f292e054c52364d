//! The settings of a mesh: its cells, faces and levels, its root blocks, and how a run goes over it.
//!
//! Each part of a deck has a function that reads it in the order of its keys, and a fact that holds of
//! all that is read: [`read_mesh_keys`] the mesh, [`read_grid`] its blocks, [`read_stepping`] time, sparse
//! fields and the whole numbers. [`find_blocks`] counts the blocks that come in any number. [`read_part`],
//! [`read_label`] and [`read_amount`] read the keys that such blocks share. The limits of all these
//! numbers stand here, by name.
#![tactic(auto)]

mod block_kinds;
mod grid;
mod limits;
mod mesh;
mod mesh_part;
mod stepping;
mod words;

pub use block_kinds::{BlockNames, find_blocks};
pub use grid::{Grid, read_grid};
pub use limits::{GREATEST_FACTOR, GREATEST_TOTAL, MOST_FIELDS};
pub use mesh::{Mesh, Refining, read_mesh_keys};
pub use mesh_part::{
    Part, read_amount, read_label, read_lower_amount, read_other_label, read_part,
};
pub use stepping::{CycleSettings, Sparsity, Stepping, read_stepping};
pub use words::{FaceKind, Faces, Method, Mode};
