//! What tasks do with the buffers that they are lent.
//!
//! The own totals of a block lie in its list among ghosts: [`own_total`] adds them up, [`has_above`] asks whether one
//! of them is above a threshold, and [`clear_unless`] makes them zero in a buffer that is not kept. [`is_next`] reads in order which buffers are among the
//! places that are kept. [`add_amount`] and [`add_flow`] add to lists by field that are no longer than they need to be.
#![tactic(auto)]

mod clearing;
mod kept;
mod own;
mod sums;

pub use clearing::{clear, clear_unless};
pub use kept::{is_next, place_of};
pub use own::{has_above, own_total};
pub use sums::{add_amount, add_flow};
