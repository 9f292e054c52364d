//! Laws of cycles and runs, for every balanced tree with one to three axes in use.
//!
//! `specs/` states them over the definitions of `mesh_rules`, and the functions here carry them: they have empty
//! bodies, and their contracts are proved from the laws of one stage, one reaction, one remap (`mesh_laws`) and one
//! tree (`block_tree`).
#![tactic(auto)]

mod laws;

pub use laws::{bound_laws, fit_law, history_law, mask_laws, tree_laws, zero_threshold_laws};
