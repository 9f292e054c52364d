//! What the work on one block is on the mesh: the fluxes of a block whose ghosts are the look are the pairs of the
//! mesh, and the update by them is the mesh's stage.
//!
//! The functions carry laws: they have empty bodies, and their contracts are proved.
#![tactic(auto)]

mod laws;

pub use laws::{first_order_law, stage_law};
