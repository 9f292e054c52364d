//! One number everywhere.

use crate::box_rows::BoxRows;

/// Rows that have one number everywhere.
#[derive(Clone, Copy, Debug)]
pub struct EvenRows {
    pub number: u64,
}

impl BoxRows for EvenRows {
    ghost gives = { λ s _ _ _ _. s.number };

    ghost asks = { λ _ _ _ _ _. Unit {0} };

    fn write_row(&self, _from: &[u64], _row: usize, _plane: usize, into: &mut [u64]) {
        into.fill(self.number);
    }
}
