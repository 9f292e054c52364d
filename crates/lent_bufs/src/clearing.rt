//! Buffers whose own totals are made zero.

ghost use Rattle.std.specs.Prelude.{◌≡◌, ◌≤◌, ◌^◌, cond, length, sum};
ghost use Rattle.block_layout.specs.Layouts.{len};
ghost use Rattle.field_bufs.specs.Buffers.{HasSizes};
ghost use Rattle.cycle_kernels.specs.Lists.{own_totals};
ghost use Rattle.lent_bufs.specs.Cleared.{cleared, cleared_cells, left_if};

use crate::own::own_total;
use block_layout::Layout;
use block_regions::{EvenRows, write_box_rows};
use field_bufs::FieldBuf;
use refine_tags::own_cells;

/// Makes a block's own totals zero; its ghosts stay.
fn clear_own(layout: &Layout, cells: &mut [u64])
    requires { length cells.old ≡ len layout.now }
    ensures { cells.new ≡ cleared_cells layout.now cells.old }
{
    let own = own_cells(layout);
    let [along1, along2, along3] = layout.cells;
    let extents = [along1 as usize, along2 as usize, along3 as usize];
    write_box_rows(&EvenRows { number: 0 }, extents, &[], cells, own);
}

/// Makes the own totals of a buffer zero, and answers how much they were.
pub fn clear(layout: &Layout, buf: &mut FieldBuf) -> u128
    requires { HasSizes layout.now buf.old }
    ensures buffer { buf.new ≡ cleared layout.now buf.old }
    ensures dropped { result ≡ sum (own_totals layout.now buf.old.cells) }
    ensures most { result ≤ 2 ^ 82 }
{
    let dropped = own_total(layout, buf.cells.as_slice());
    clear_own(layout, buf.cells.as_mut_slice());
    dropped
}

/// Makes the own totals of a buffer that is not kept zero, and answers how much they were.
pub fn clear_unless(kept: bool, layout: &Layout, buf: &mut FieldBuf) -> u128
    requires { HasSizes layout.now buf.old }
    ensures buffer { buf.new ≡ left_if kept layout.now buf.old }
    ensures dropped { result ≡ cond kept 0 (sum (own_totals layout.now buf.old.cells)) }
    ensures most { result ≤ 2 ^ 82 }
{
    if kept {
        return 0;
    }
    clear(layout, buf)
}
