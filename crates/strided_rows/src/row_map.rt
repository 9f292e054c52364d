//! What becomes of a row.

ghost use Rattle.std.specs.Prelude.{◌≡◌, ◌≤◌, ℕ, length, map, All};

/// What a row becomes in another one of the same length, number by number.
pub trait RowMap {
    ghost gives: { Self → ℕ → ℕ };

    /// The greatest number that it takes.
    ghost greatest: { Self → ℕ };

    /// Writes what each number gives.
    fn map_row(&self, from: &[u64], into: &mut [u64])
        requires lengths { length into.old ≡ length from.now }
        requires small { All (λ n. n ≤ greatest self.now) from.now }
        ensures { into.new ≡ map (gives self.now) from.now };
}

/// The row itself.
#[derive(Clone, Copy, Debug)]
pub struct CopyRow;

impl RowMap for CopyRow {
    ghost gives = { λ _ n. n };

    ghost greatest = { λ _. 18446744073709551615 };

    fn map_row(&self, from: &[u64], into: &mut [u64]) {
        into.copy_from_slice(from);
    }
}

/// Zeros, whatever the row is.
#[derive(Clone, Copy, Debug)]
pub struct ZeroRow;

impl RowMap for ZeroRow {
    ghost gives = { λ _ _. 0 };

    ghost greatest = { λ _. 18446744073709551615 };

    fn map_row(&self, _from: &[u64], into: &mut [u64]) {
        into.fill(0);
    }
}
