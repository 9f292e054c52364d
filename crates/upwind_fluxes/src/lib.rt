//! What passes the faces of a block's cells in a stage, by the first order.
//!
//! A face has a total that passes to the right, which the cell below it pays, and one to the left, which the cell
//! above it pays. Each is the upwind portion: the floor of the paying cell's total times the rate over the
//! denominator. [`fluxes`] writes both for every face of a block, from its cells and filled ghosts, for one to three
//! axes in use. It makes no division: the rates' [`Multipliers`] are made once for a field and a level, and each block
//! takes the fastest tier that its totals allow.
#![tactic(auto)]

mod all_faces;
mod direction;
mod donor;
mod faces;
mod greatest;
mod multipliers;
mod portion_row;
mod rates;
mod sides;
#[cfg(test)]
mod tests;

pub use all_faces::{fluxes, fluxes_by};
pub use donor::Donor;
pub use faces::face_extents;
pub use greatest::greatest_bits;
pub use multipliers::Multipliers;
pub use portion_row::PortionRow;
pub use rates::LevelRates;
pub use sides::close_if;
