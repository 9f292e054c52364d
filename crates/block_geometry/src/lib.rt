//! How the lists of a block show a mesh: which cell of the mesh each place of a block's list stands for, what the
//! ghosts beside a block have to be, and which pairs of the mesh its lists of faces have.
//!
//! `specs/` has the definitions, over the rules of `mesh_rules` and the lists of `block_layout`. The functions here
//! carry laws of them: they have empty bodies, and their contracts are proved.
#![tactic(auto)]

mod laws;

pub use laws::{cell_laws, row_law, worked_places};
