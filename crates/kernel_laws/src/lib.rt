//! What the kernels of a stage leave on a block is what the mesh has: the fluxes of the second order are its pairs, the
//! update is its stage.
//!
//! The functions carry laws: they have empty bodies, and their contracts are proved.
#![tactic(auto)]

mod laws;

pub use laws::{second_order_law, update_law};
