//! The rows of several planes.

ghost use Rattle.std.specs.Prelude.{◌≡◌, ◌+◌, ◌*◌, ◌≤◌, ◌<◌, ◌^◌, length};
ghost use Rattle.strided_rows.specs.Written.{Apart, FitPlanes, rows_of};
ghost use Rattle.row_updates.specs.Steps.{PlanesDone, PlanesStay, TakesPlanes};

use crate::rows::update_rows;
use crate::rule::RowRule;
use strided_rows::{Planes, Rows};

/// The rows of one plane.
fn rows_in(all: Planes, plane: usize) -> Rows
    requires { all.first + plane * all.plane < 2 ^ 64 }
    ensures { result ≡ rows_of all plane }
{
    Rows {
        first: all.first + plane * all.plane,
        step: all.step,
    }
}

/// Updates the rows of `planes` planes, `count` rows of `len` numbers in each, by the planes of two lists.
pub fn update_planes<R: RowRule>(
    op: &R,
    len: usize,
    count: usize,
    planes: usize,
    into: &mut [u64],
    at: Planes,
    one: &[u64],
    first: Planes,
    second: Planes,
    other: &[u64],
    third: Planes,
    fourth: Planes,
)
    requires some { 1 ≤ count }
    requires apart { Apart len count at }
    requires into { FitPlanes len count planes at (length into.old) }
    requires firsts { FitPlanes len count planes first (length one.now) }
    requires seconds { FitPlanes len count planes second (length one.now) }
    requires thirds { FitPlanes len count planes third (length other.now) }
    requires fourths { FitPlanes len count planes fourth (length other.now) }
    requires taken { TakesPlanes (R.takes op.now)
        (record { one = one.now; first = first; second = second; other = other.now; third = third; fourth = fourth })
        len count planes at into.old }
    ensures inside { PlanesDone (R.gives op.now)
        (record { one = one.now; first = first; second = second; other = other.now; third = third; fourth = fourth })
        len count planes at into.old into.new }
    ensures outside { PlanesStay len count planes at into.old into.new }
{
    for plane in 0..planes {
        let rows = rows_in(at, plane);
        let a = rows_in(first, plane);
        let b = rows_in(second, plane);
        let c = rows_in(third, plane);
        let d = rows_in(fourth, plane);
        update_rows(op, len, count, into, rows, one, a, b, other, c, d);
    }
}
