//! Writing a box from a box.

ghost use Rattle.std.specs.Prelude.{◌≡◌, ◌≤◌, length, All};
ghost use Rattle.cell_boxes.specs.Boxes.{HasBox, HasCells, IsBoxIn, StaysOffBox};
ghost use Rattle.cell_boxes.specs.Planes.{planes_of};

use strided_rows::{Planes, RowMap, write_planes};

/// Where a box of numbers lies in a list: from `first` on the list has a box of `widths`, x1 fastest, and in that the
/// box begins at the index `low`.
#[derive(Clone, Copy, Debug)]
pub struct BoxIn {
    pub first: usize,
    pub widths: [usize; 3],
    pub low: [usize; 3],
}

/// The rows of a box of these extents.
#[tactic(auto, using(crate::proofs::Rows::first_row_within))]
fn planes_in(extents: [usize; 3], b: BoxIn, len: usize) -> Planes
    requires cells { HasCells extents }
    requires lies { IsBoxIn extents b len }
    ensures { result ≡ planes_of b }
{
    Planes {
        first: b.first + (b.low[0] + b.widths[0] * (b.low[1] + b.widths[1] * b.low[2])),
        step: b.widths[0],
        plane: b.widths[0] * b.widths[1],
    }
}

/// Writes a box of these extents by what the numbers of a box of another list give, at equal indices.
pub fn write_box<R: RowMap>(
    op: &R,
    extents: [usize; 3],
    from: &[u64],
    from_box: BoxIn,
    into: &mut [u64],
    into_box: BoxIn,
)
    requires cells { HasCells extents }
    requires from { IsBoxIn extents from_box (length from.now) }
    requires into { IsBoxIn extents into_box (length into.old) }
    requires small { All (λ n. n ≤ R.greatest op.now) from.now }
    ensures inside { HasBox (R.gives op.now) extents from.now from_box into.new into_box }
    ensures outside { StaysOffBox extents into_box into.old into.new }
{
    let from_planes = planes_in(extents, from_box, from.len());
    let into_planes = planes_in(extents, into_box, into.len());
    write_planes(
        op,
        extents[0],
        extents[1],
        extents[2],
        from,
        from_planes,
        into,
        into_planes,
    );
}
