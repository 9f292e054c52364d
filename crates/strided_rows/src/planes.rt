//! The rows of several planes.

ghost use Rattle.std.specs.Prelude.{◌≡◌, ◌≤◌, length, All};
ghost use Rattle.strided_rows.specs.Written.{FitPlanes, planes_written};

use crate::row_map::RowMap;
use crate::rows::{Rows, write_rows};

/// Where the rows of planes lie in a list: the place of the first row, and the steps from row to row and from plane to
/// plane.
#[derive(Clone, Copy, Debug)]
pub struct Planes {
    pub first: usize,
    pub step: usize,
    pub plane: usize,
}

/// Writes the rows of `planes` planes, `count` rows of `len` numbers in each, by what the rows of another list give.
pub fn write_planes<R: RowMap>(
    op: &R,
    len: usize,
    count: usize,
    planes: usize,
    from: &[u64],
    from_planes: Planes,
    into: &mut [u64],
    into_planes: Planes,
)
    requires some { 1 ≤ count }
    requires from { FitPlanes len count planes from_planes (length from.now) }
    requires into { FitPlanes len count planes into_planes (length into.old) }
    requires small { All (λ n. n ≤ R.greatest op.now) from.now }
    ensures { into.new ≡ planes_written (R.gives op.now) len count from.now from_planes into_planes planes into.old }
{
    for plane in 0..planes {
        let from_rows = Rows {
            first: from_planes.first + plane * from_planes.plane,
            step: from_planes.step,
        };
        let into_rows = Rows {
            first: into_planes.first + plane * into_planes.plane,
            step: into_planes.step,
        };
        write_rows(op, len, count, from, from_rows, into, into_rows);
    }
}
