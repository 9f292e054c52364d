//! What a pass along an axis adds to.

ghost use Rattle.std.specs.Prelude.{◌≡◌, ℕ};

/// Which total of a cell a pass along an axis begins with.
pub(crate) trait Start: Copy {
    ghost begins: { Self → ℕ → ℕ → ℕ };

    /// The total that it begins with, of what stands in the new list and what the cell has in the list that is read.
    fn begin(&self, written: u64, here: u64) -> u64
        ensures { result ≡ begins self.now written here };
}

/// The total in the list that is read: nothing has been written yet.
#[derive(Clone, Copy, Debug)]
pub(crate) struct FromCells;

impl Start for FromCells {
    ghost begins = { λ _ _ here. here };

    fn begin(&self, _written: u64, here: u64) -> u64 {
        here
    }
}

/// The total in the new list: passes along other axes were before.
#[derive(Clone, Copy, Debug)]
pub(crate) struct FromWritten;

impl Start for FromWritten {
    ghost begins = { λ _ written _. written };

    fn begin(&self, written: u64, _here: u64) -> u64 {
        written
    }
}
