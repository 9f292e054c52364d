//! Rows of numbers that are updated in place by the rows beside them.
//!
//! A [`RowRule`] writes one row by what stands in it and in four other rows, number by number. [`update_planes`] goes
//! by a rule over the rows of a list that lie at equal steps, and over those of two lists that are read.
#![tactic(auto)]

mod planes;
mod rows;
mod rule;

pub use planes::update_planes;
pub use rule::RowRule;
pub use strided_rows::{Planes, Rows};
