//! Flux correction on the mesh: what the kernels of `flux_correct` write is what the laws of the mesh's pairs ask for,
//! and what the kernel adds up at a side is what the laws of flows speak of.
//!
//! The functions carry laws: they have empty bodies, and their contracts are proved.
#![tactic(auto)]

mod laws;

pub use laws::{gained_pairs_law, passed_law, replaced_law};
