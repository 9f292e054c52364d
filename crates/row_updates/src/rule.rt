//! What becomes of a row.

ghost use Rattle.std.specs.Prelude.{◌≡◌, ℕ, ◌<◌, length, slice_index};
ghost use Rattle.row_updates.specs.Numbers.{Numbers, numbers_at};

/// What the numbers of a row become, by the numbers at the same place of four rows beside it.
pub trait RowRule {
    ghost gives: { Self → Numbers → ℕ };

    /// Which numbers it takes.
    ghost takes: { Self → Numbers → Type 0 };

    /// Writes what each number becomes.
    fn update_row(
        &self,
        into: &mut [u64],
        first: &[u64],
        second: &[u64],
        third: &[u64],
        fourth: &[u64],
    )
        requires firsts { length first.now ≡ length into.old }
        requires seconds { length second.now ≡ length into.old }
        requires thirds { length third.now ≡ length into.old }
        requires fourths { length fourth.now ≡ length into.old }
        requires taken { (k : ℕ) → k < length into.old
            → takes self.now (numbers_at into.old first.now second.now third.now fourth.now k) }
        ensures { (k : ℕ) → k < length into.old
            → slice_index into.new k ≡ gives self.now
            (numbers_at into.old first.now second.now third.now fourth.now k) };
}
