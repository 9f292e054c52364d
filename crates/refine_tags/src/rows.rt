//! The greatest numbers of rows, and the greatest differences.

ghost use Rattle.std.specs.Prelude.{◌≡◌, ◌+◌, ◌-◌, length, slice_index};
ghost use Rattle.mesh_rules.specs.Sums.{greatest_to};
ghost use Rattle.mesh_rules.specs.Tags.{difference as difference_of};

/// By how much two numbers differ.
fn difference(a: u64, b: u64) -> u64
    ensures { result ≡ difference_of a b }
{
    if a < b { b - a } else { a - b }
}

/// The greatest number of a row.
#[tactic(auto, using(crate::proofs::Greatest::greatest_more))]
pub(crate) fn greatest(row: &[u64]) -> u64
    ensures { result ≡ greatest_to (length row.now) (slice_index row.now) }
{
    let mut best = 0;
    for x in 0..row.len() {
        best = best.max(row[x]);
    }
    best
}

/// The greatest difference of two numbers of a row that stand side by side.
#[tactic(auto, using(crate::proofs::Greatest::greatest_more))]
pub(crate) fn greatest_step(row: &[u64]) -> u64
    ensures { result ≡ greatest_to (length row.now - 1)
        (λ x. difference_of (slice_index row.now x) (slice_index row.now (x + 1))) }
{
    let mut best = 0;
    if row.is_empty() {
        return best;
    }
    for x in 0..row.len() - 1 {
        best = best.max(difference(row[x], row[x + 1]));
    }
    best
}

/// The greatest difference of two numbers in one place of two rows.
#[tactic(auto, using(crate::proofs::Greatest::greatest_more))]
pub(crate) fn greatest_difference(row: &[u64], next: &[u64]) -> u64
    requires { length next.now ≡ length row.now }
    ensures { result ≡ greatest_to (length row.now)
        (λ x. difference_of (slice_index row.now x) (slice_index next.now x)) }
{
    let mut best = 0;
    for x in 0..row.len() {
        best = best.max(difference(row[x], next[x]));
    }
    best
}
