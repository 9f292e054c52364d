//! What passes the faces of a block's cells in a stage, by the second order.
//!
//! As by the first order, the cell below a face pays what passes to the right and the cell above it what passes to the
//! left: the upwind portion of a total, floored. By the second order the total is that of the paying cell
//! reconstructed at the face with a limited slope: half of the smaller difference to its two neighbours along the axis
//! is added where the totals rise towards the face, and taken away where they fall. [`slope_fluxes`] writes both lists
//! from both layers of ghosts. It makes no division; what a cell counts for is never above the greatest total of the
//! block, by which the tier is chosen.
#![tactic(auto)]

mod all_slopes;
mod direction;
mod faces;
#[cfg(test)]
mod tests;

pub use all_slopes::{slope_fluxes, slope_fluxes_by};
