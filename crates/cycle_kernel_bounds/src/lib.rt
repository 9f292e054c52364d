//! Under which conditions the kernels of blocks may be called, on lists that hold a mesh of a stage.
//!
//! The functions carry laws: they have empty bodies, and their contracts are proved.
#![tactic(auto)]

mod laws;

pub use laws::{exchange_bounds, stage_bounds};
