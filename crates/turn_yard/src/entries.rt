ghost use Rattle.std.specs.Prelude.{◌≡◌, ℕ, ◌<◌, List, length, slice_index};

/// What a value behind the turn tells of itself.
pub trait Entries {
    // The history: entries in order, each a list of numbers whose first is the number of the seat that made it.
    ghost entries: { Self → List (List ℕ) };

    // What the value was made from. It never changes.
    ghost origin: { Self → List ℕ };

    // One number for each partition, such as an epoch. None ever falls.
    ghost marks: { Self → List ℕ };

    /// The mark of the partition `p`.
    fn mark(&self, p: u32) -> u64
        requires { p < length (marks self.now) }
        ensures { result ≡ slice_index (marks self.now) p };
}
