//! Fine rows that are added to coarse ones.

ghost use Rattle.std.specs.Prelude.{◌≡◌, ◌+◌, ◌*◌, ◌<◌, ◌≤◌, ◌^◌, ℕ, length, slice_index};
ghost use Rattle.restrict_prolong.specs.Rows.{AddsRow, RowBelow};

/// Adds to each number of a row the one in its place.
fn add_each(from: &[u64], into: &mut [u64])
    requires lengths { length from.now ≡ length into.old }
    requires small { (x : ℕ) → x < length into.old → slice_index into.old x + slice_index from.now x < 2 ^ 64 }
    ensures { (x : ℕ) → x < length into.old → slice_index into.new x ≡ slice_index into.old x + slice_index from.now x }
{
    for x in 0..into.len() {
        into[x] += from[x];
    }
}

/// Adds to each number of a row the two in its place.
fn add_pairs(from: &[u64], into: &mut [u64])
    requires lengths { length from.now ≡ 2 * length into.old }
    requires small { (x : ℕ) → x < length into.old
        → slice_index into.old x + slice_index from.now (2 * x) + slice_index from.now (2 * x + 1) < 2 ^ 64 }
    ensures { (x : ℕ) → x < length into.old
        → slice_index into.new x ≡ slice_index into.old x + slice_index from.now (2 * x)
        + slice_index from.now (2 * x + 1) }
{
    for x in 0..into.len() {
        into[x] = into[x] + from[2 * x] + from[2 * x + 1];
    }
}

/// Adds to each number of a coarse row the one or two of a fine one in its place.
pub(crate) fn add_row(factor: usize, from: &[u64], into: &mut [u64])
    requires least { 1 ≤ factor }
    requires most { factor ≤ 2 }
    requires lengths { length from.now ≡ factor * length into.old }
    requires small { RowBelow (2 ^ 64) factor from.now into.old }
    ensures { AddsRow factor from.now into.old into.new }
{
    if factor == 2 {
        add_pairs(from, into);
    } else {
        add_each(from, into);
    }
}
