//! Updating a box.

ghost use Rattle.std.specs.Prelude.{◌≡◌, ◌≤◌, length};
ghost use Rattle.cell_boxes.specs.Boxes.{HasCells, IsBoxIn, StaysOffBox};
ghost use Rattle.cell_boxes.specs.Planes.{planes_of};
ghost use Rattle.box_updates.specs.Boxes.{IsUpdated, TakesBox};

use cell_boxes::BoxIn;
use row_updates::{RowRule, update_planes};
use strided_rows::Planes;

/// The rows of a box of these extents.
#[tactic(auto, using(cell_boxes::proofs::Rows::first_row_within))]
fn planes_in(extents: [usize; 3], b: BoxIn, len: usize) -> Planes
    requires cells { HasCells extents }
    requires lies { IsBoxIn extents b len }
    ensures { result ≡ planes_of b }
{
    Planes {
        first: b.first + (b.low[0] + b.widths[0] * (b.low[1] + b.widths[1] * b.low[2])),
        step: b.widths[0],
        plane: b.widths[0] * b.widths[1],
    }
}

/// Updates a box of these extents by what a rule gives of each of its numbers and of those at the same index of four
/// boxes: the first and the second box of the list `one`, the third and the fourth of the list `other`. All else stays
/// as it is.
pub fn update_box<R: RowRule>(
    op: &R,
    extents: [usize; 3],
    into: &mut [u64],
    at: BoxIn,
    one: &[u64],
    first: BoxIn,
    second: BoxIn,
    other: &[u64],
    third: BoxIn,
    fourth: BoxIn,
)
    requires cells { HasCells extents }
    requires into { IsBoxIn extents at (length into.old) }
    requires firsts { IsBoxIn extents first (length one.now) }
    requires seconds { IsBoxIn extents second (length one.now) }
    requires thirds { IsBoxIn extents third (length other.now) }
    requires fourths { IsBoxIn extents fourth (length other.now) }
    requires taken { TakesBox (R.takes op.now) extents into.old at
        (record { one = one.now; first = first; second = second; other = other.now; third = third; fourth = fourth }) }
    ensures inside { IsUpdated (R.gives op.now) extents into.old at
        (record { one = one.now; first = first; second = second; other = other.now; third = third; fourth = fourth })
        into.new }
    ensures outside { StaysOffBox extents at into.old into.new }
{
    let planes = planes_in(extents, at, into.len());
    let a = planes_in(extents, first, one.len());
    let b = planes_in(extents, second, one.len());
    let c = planes_in(extents, third, other.len());
    let d = planes_in(extents, fourth, other.len());
    update_planes(
        op, extents[0], extents[1], extents[2], into, planes, one, a, b, other, c, d,
    );
}
