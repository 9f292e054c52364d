//! The kernels of a cycle meet what the machine of sparse buffers asks of kernels.
//!
//! | Law | What it says |
//! |---|---|
//! | [`kernels_law`] | on every mesh of a cycle the kernels meet what the machine asks (`AreKernels`) |
//! | [`problem_law`] | each mesh of a problem is the mesh of a cycle |
//! | [`shown_laws`] | ghosts by letters are what the mesh shows, and a block's fluxes are its own pairs |
//!
//! The functions carry laws: they have empty bodies, and their contracts are proved.
#![tactic(auto)]

mod laws;

pub use laws::{kernels_law, problem_law, shown_laws};
