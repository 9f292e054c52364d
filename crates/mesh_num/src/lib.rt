//! Arithmetic on whole totals, and their decimal texts.
//!
//! - `share` divides a total among parts that add up to it again.
//! - `portion` is the floor of a proper fraction of a total.
//! - `rate` is the transport rate of a field at a level.
//! - `from_decimal` reads a number that is written in decimal digits.
//! - `NoMemory` is the error of a call that can fail for want of memory alone.
#![tactic(auto)]

mod decimals;
mod memory;
mod portions;
mod rates;
mod shares;

pub use decimals::from_decimal;
pub use memory::NoMemory;
pub use portions::{portion, portion_laws};
pub use rates::rate;
pub use shares::{share, shares_add_up};
