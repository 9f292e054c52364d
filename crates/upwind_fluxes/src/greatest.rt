//! A bound on the totals of a block, by which the tier of its portions is chosen.

ghost use Rattle.std.specs.Prelude.{◌<◌, ◌≤◌, ◌^◌, All};

/// A number that no total passes: the bits of all totals together. It is below 2^62 where they are.
pub fn greatest_bits(totals: &[u64]) -> u64
    requires { All (λ t. t < 2 ^ 62) totals.now }
    ensures bound { All (λ t. t ≤ result) totals.now }
    ensures small { result < 2 ^ 62 }
{
    let mut bits = 0u64;
    for total in totals {
        bits |= *total;
    }
    bits
}
