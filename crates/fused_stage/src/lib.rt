//! A stage on one block from its cells and ghosts alone.
//!
//! [`stage`] makes the next totals of the interior cells of a block by the upwind rule of the first order, as the
//! fluxes and the update of `transport_kernel` do, but lists nothing of what passes the faces: each cell takes the
//! portions of its neighbours and gives its own. It serves where no one reads what passes the faces.
#![tactic(auto)]

mod axis;
mod block_stage;
mod laws;
mod layers;
mod neighbour_pass;
mod start;
mod tiers;

pub use block_stage::stage;
pub use laws::{fitting_rates_law, update_law};
pub use upwind_fluxes::{Donor, LevelRates, Multipliers};
