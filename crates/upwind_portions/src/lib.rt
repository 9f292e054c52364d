//! Upwind portions without a division.
//!
//! A portion is `floor(q * c / d)`: what leaves a cell of total `q` through a face in a stage, where `c` is the rate
//! and `d` the denominator. A [`Fraction`] holds the exact multipliers of one `c / d`. Each tier answers the portion
//! itself, for totals up to its own greatest one: [`Narrow`] by one product of 32-bit numbers and [`Middle`] by two,
//! which vectorize, [`General`] by two products of 64-bit numbers, and [`Still`] at once, for a rate of 0.
#![tactic(auto)]

mod fraction;
mod general;
mod middle;
mod narrow;
mod portions;

pub use fraction::{Fraction, Tier};
pub use general::General;
pub use middle::Middle;
pub use narrow::Narrow;
pub use portions::{Portions, Still, multiplier_law};
