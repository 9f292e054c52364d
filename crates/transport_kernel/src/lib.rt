//! A stage on one block: what passes its faces, and what its cells become by it.
//!
//! [`fluxes`] writes what passes every face of a block to the right and to the left, by the upwind rule of the first
//! order. [`update`] makes of such lists the next totals of the interior cells: each gains what comes in through its
//! faces and loses what goes out. [`passed`] adds up what passes the faces at one side, for what flows through the
//! domain's faces.
#![tactic(auto)]

mod boxes;
mod sums;
#[cfg(test)]
mod tests;
mod totals;

pub use sums::passed;
pub use totals::update;
pub use upwind_fluxes::{Donor, LevelRates, Multipliers, fluxes, fluxes_by, greatest_bits};
