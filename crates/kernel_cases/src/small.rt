//! Lists of small numbers.

ghost use Rattle.std.specs.Prelude.{◌<◌, ◌≤◌, ◌^◌, All, IfOk, IsTrue, ◌≡◌, length};

use mesh_num::NoMemory;
use std::alloc::Global;

/// Whether all numbers are below 2^32.
pub(crate) fn are_small(list: &[u64]) -> bool
    ensures { IsTrue result → All (λ t. t < 2 ^ 32) list.now }
{
    let mut bits = 0u64;
    for number in list {
        bits |= *number;
    }
    bits < 1 << 32
}

/// A list of so many zeros but for some places.
pub(crate) fn listed(
    alloc: Global,
    size: usize,
    places: &[(usize, u64)],
) -> Result<Vec<u64>, NoMemory> {
    let mut list = Vec::from_elem(alloc, 0u64, size)?;
    for (place, number) in places {
        if *place < list.len() {
            list[*place] = *number;
        }
    }
    Ok(list)
}
