//! The kernels of a cycle on a mesh, as the machine of sparse buffers reads them.
//!
//! A block is a leaf of the mesh, by its number; a letter is an exchange between two leaves across a side. What a
//! field has on a block is the list of its own totals, its ghosts in a list of the block with ghosts, and what passes
//! its faces. Each kernel of one block (ghosts, fluxes, corrections, updates, reactions, wishes) stands here as a
//! function of lists, in the words of its own crate.
//!
//! | File of `specs/` | What a reader has to believe |
//! |---|---|
//! | `Blocks` | the mesh of a cycle (`CycleMesh`), its blocks, and what stands outside of the domain |
//! | `Lists` | a block's own totals and its ghosts, together in one list and apart |
//! | `Letters` | what a ghost letter holds, and the ghosts that the letters to a block give |
//! | `Pairs` | what passes faces, flux sums and corrections, updates, and what passes faces of the domain |
//! | `Cells` | reactions, cell by cell, and the wish of a block |
//! | `Kernels` | all of them together (`kernels_of`) |
//! | `Laws` | which meshes are meshes of a cycle (`IsCycleMesh`) |
#![tactic(auto)]

mod laws;

pub use laws::owner_law;
