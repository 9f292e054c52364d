//! What the boxes of a problem put into root cells.

ghost use Rattle.std.specs.Prelude.{◌≡◌, ◌==◌, ◌&&◌, ◌<◌, ◌^◌, nat_le, IfOk};
ghost use Rattle.std.specs.List.{filter};
ghost use Rattle.deck_entries.specs.declared.entries.StartBox.{StartBox};
ghost use Rattle.mesh_rules.specs.Opening.{holds as holds_of};
ghost use Rattle.dense_remesh.specs.StartBoxes.{amounts, cell_of, meets as meets_of, root_total as root_total_of};

use mesh_num::NoMemory;
use problem_set::StartBox;
use std::alloc::Global;

/// Whether two ranges meet, both ends included.
fn overlap(low: u32, high: u32, from: u64, to: u64) -> bool
    ensures { result ≡ (nat_le low to && nat_le from high) }
{
    u64::from(low) <= to && from <= u64::from(high)
}

/// Whether a box meets the root cells between two.
fn meets(area: &StartBox, low: &[u64; 3], high: &[u64; 3]) -> bool
    ensures { result ≡ meets_of area.now low.now high.now }
{
    overlap(area.lo[0], area.hi[0], low[0], high[0])
        && overlap(area.lo[1], area.hi[1], low[1], high[1])
        && overlap(area.lo[2], area.hi[2], low[2], high[2])
}

/// Whether a box holds a root cell.
fn holds(area: &StartBox, cell: &[u64; 3]) -> bool
    ensures { result ≡ holds_of area.now (cell_of 0 cell.now) }
{
    meets(area, cell, cell)
}

/// The boxes of a field.
pub fn boxes_of(alloc: Global, boxes: &[StartBox], field: u32) -> Result<Vec<StartBox>, NoMemory>
    ensures { IfOk result (λ some. some.items ≡ filter (λ (b : StartBox). b.field == field) boxes.now) }
{
    let some = boxes
        .iter()
        .filter(|area| area.field == field)
        .copied()
        .collect(alloc)?;
    Ok(some)
}

/// The boxes that meet the root cells between two.
pub(crate) fn boxes_near(
    alloc: Global,
    boxes: &[StartBox],
    low: &[u64; 3],
    high: &[u64; 3],
) -> Result<Vec<StartBox>, NoMemory>
    ensures { IfOk result (λ some. some.items ≡ filter (λ (b : StartBox). meets_of b low.now high.now) boxes.now) }
{
    let some = boxes
        .iter()
        .filter(|area| meets(area, low, high))
        .copied()
        .collect(alloc)?;
    Ok(some)
}

/// What boxes put into a root cell.
pub(crate) fn root_total(boxes: &[StartBox], cell: &[u64; 3]) -> u64
    requires { amounts boxes.now < 2 ^ 62 }
    ensures { result ≡ root_total_of boxes.now (cell_of 0 cell.now) }
{
    let mut total = 0;
    for area in boxes {
        if holds(area, cell) {
            total += area.amount;
        }
    }
    total
}
