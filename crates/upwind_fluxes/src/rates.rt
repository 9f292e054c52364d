//! The rates of a field at a level.

use problem_set::Rates;

/// The rates of a field at a level along x1, x2 and x3, as parts of the denominator.
#[derive(Clone, Copy)]
pub struct LevelRates {
    pub denominator: u64,
    pub axes: [Rates; 3],
}
