//! The rows of a plane.

ghost use Rattle.std.specs.Prelude.{◌≡◌, ◌≤◌, length, All};
ghost use Rattle.strided_rows.specs.Written.{Fits, rows_written};

use crate::row_map::RowMap;

/// Where rows lie in a list: the place of the first one, and the step from each to the next.
#[derive(Clone, Copy, Debug)]
pub struct Rows {
    pub first: usize,
    pub step: usize,
}

/// Writes `count` rows of `len` numbers each, by what the rows of another list give.
pub fn write_rows<R: RowMap>(
    op: &R,
    len: usize,
    count: usize,
    from: &[u64],
    from_rows: Rows,
    into: &mut [u64],
    into_rows: Rows,
)
    requires from { Fits len count from_rows (length from.now) }
    requires into { Fits len count into_rows (length into.old) }
    requires small { All (λ n. n ≤ R.greatest op.now) from.now }
    ensures { into.new ≡ rows_written (R.gives op.now) len from.now from_rows into_rows count into.old }
{
    for row in 0..count {
        let a = from_rows.first + row * from_rows.step;
        let b = into_rows.first + row * into_rows.step;
        op.map_row(&from[a..a + len], &mut into[b..b + len]);
    }
}
