//! Parts of sides, and of what comes across them.

ghost use Rattle.std.specs.Prelude.{◌≡◌, ◌%◌, ◌<◌, ◌≤◌};
ghost use Rattle.morton_order.specs.Space.{child_number, factor};
ghost use Rattle.mesh_rules.specs.Mask.{some_above};
ghost use Rattle.letter_laws.specs.Sides.{side_part as part_number};

use morton_order::Loc;

/// Which half of its parent a location is along an axis, by its coordinate.
fn half_at(dims: u32, axis: u32, coordinate: u32) -> u32
    ensures value { result ≡ coordinate % factor dims axis }
    ensures bit { result ≤ 1 }
{
    if axis < dims { coordinate % 2 } else { 0 }
}

/// The number of the part of a side that a location covers beside a coarser one.
pub(crate) fn side_part(dims: u32, axis: u32, at: &Loc) -> u32
    ensures part { result ≡ part_number axis (child_number dims at.now) }
    ensures few { result < 4 }
{
    let first = half_at(dims, 0, at.l1);
    let second = half_at(dims, 1, at.l2);
    let third = half_at(dims, 2, at.l3);
    match axis {
        0 => second + 2 * third,
        1 => first + 2 * third,
        _ => first + 2 * second,
    }
}

/// Whether some total is above a threshold.
pub(crate) fn has_above(totals: &[u64], threshold: u64) -> bool
    ensures { result ≡ some_above threshold totals.now }
{
    totals.iter().any(|total| threshold < *total)
}
