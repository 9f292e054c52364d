//! The rows of a plane.

ghost use Rattle.std.specs.Prelude.{◌≤◌, length};
ghost use Rattle.strided_rows.specs.Written.{Fits};
ghost use Rattle.row_updates.specs.Steps.{RowsDone, RowsStay, TakesRows};

use crate::rule::RowRule;
use strided_rows::Rows;

/// Updates `count` rows of `len` numbers each, by the rows of two lists.
pub(crate) fn update_rows<R: RowRule>(
    op: &R,
    len: usize,
    count: usize,
    into: &mut [u64],
    at: Rows,
    one: &[u64],
    first: Rows,
    second: Rows,
    other: &[u64],
    third: Rows,
    fourth: Rows,
)
    requires apart { len ≤ at.step }
    requires into { Fits len count at (length into.old) }
    requires firsts { Fits len count first (length one.now) }
    requires seconds { Fits len count second (length one.now) }
    requires thirds { Fits len count third (length other.now) }
    requires fourths { Fits len count fourth (length other.now) }
    requires taken { TakesRows (R.takes op.now)
        (record { one = one.now; first = first; second = second; other = other.now; third = third; fourth = fourth })
        len count at into.old }
    ensures inside { RowsDone (R.gives op.now)
        (record { one = one.now; first = first; second = second; other = other.now; third = third; fourth = fourth })
        len count at into.old into.new }
    ensures outside { RowsStay len count at into.old into.new }
{
    for row in 0..count {
        let a = at.first + row * at.step;
        let b = first.first + row * first.step;
        let c = second.first + row * second.step;
        let d = third.first + row * third.step;
        let e = fourth.first + row * fourth.step;
        op.update_row(
            &mut into[a..a + len],
            &one[b..b + len],
            &one[c..c + len],
            &other[d..d + len],
            &other[e..e + len],
        );
    }
}
