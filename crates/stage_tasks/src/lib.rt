//! The tasks of a stage that compute: what passes the faces of the buffers that are lent, and their update.
//!
//! [`compute_fluxes`] writes in each buffer what passes the faces of its block, by its own totals and ghosts.
//! [`update_bufs`] makes of each buffer's totals those after the stage, tells what flows through the faces of the
//! domain, and makes zero what is not kept. What they leave is told by the kernels of the cycle's mesh.
#![tactic(auto)]

mod fluxes;
mod portions;
mod updates;

pub use fluxes::compute_fluxes;
pub use updates::{Updated, update_bufs};
