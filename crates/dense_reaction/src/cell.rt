//! A kernel in one cell of a block.

ghost use Rattle.std.specs.Prelude.{◌≡◌, ◌<◌, ◌^◌, length, sum, All, slice_set};
ghost use Rattle.package_fields.specs.Flow.{IsBelow};
ghost use Rattle.package_fields.specs.Kernel.{with_reacted};
ghost use Rattle.dense_reaction.specs.Blocks.{IsWritten, cell_in};

use cell_lists::Cells;
use package_fields::{CellKernel, Flow};

/// Puts the totals of a cell, one from each row, into a list, and answers their sum.
fn gather(rows: &[Cells], place: usize, cell: &mut [u64]) -> u64
    requires fields { length cell.old ≡ length rows.now }
    requires place { All (λ row. place < length row) rows.now }
    requires small { sum (cell_in rows.now place) < 2 ^ 62 }
    ensures cell { cell.new ≡ cell_in rows.now place }
    ensures sum { result ≡ sum (cell_in rows.now place) }
{
    let mut sum = 0;
    for field in 0..rows.len() {
        let total = rows[field].as_slice()[place];
        cell[field] = total;
        sum += total;
    }
    sum
}

/// Sets the total at a place of a row.
fn set_total(row: &mut Cells, place: usize, total: u64)
    requires { place < length row.old }
    ensures { row.new ≡ slice_set row.old place total }
{
    row.as_mut_slice()[place] = total;
}

/// Puts the totals of a cell back into the rows.
fn scatter(rows: &mut Vec<Cells>, place: usize, cell: &[u64])
    requires fields { length cell.now ≡ length rows.old.items }
    requires place { All (λ row. place < length row) rows.old.items }
    ensures { IsWritten place cell.now rows.old.items rows.new.items }
{
    for field in 0..cell.len() {
        set_total(&mut rows[field], place, cell[field]);
    }
}

/// Applies a kernel in the cell at a place of a block, of which there is a row of totals for each field. The list
/// `cell` serves to hold the totals of the cell.
pub fn react_cell<C: CellKernel>(
    kernel: &C,
    rows: &mut Vec<Cells>,
    place: usize,
    cell: &mut [u64],
    flows: &mut [Flow],
)
    requires fields { C.fields kernel.now ≡ length rows.old.items }
    requires cell { length cell.old ≡ length rows.old.items }
    requires flows { length flows.old ≡ length rows.old.items }
    requires place { All (λ row. place < length row) rows.old.items }
    requires small_cell { sum (cell_in rows.old.items place) < 2 ^ 62 }
    requires small_flows { All (IsBelow (2 ^ 99)) flows.old }
    ensures rows { IsWritten place (C.reacts (C.code kernel.now) (cell_in rows.old.items place)).totals rows.old.items
        rows.new.items }
    ensures flows { flows.new ≡ with_reacted flows.old (C.reacts (C.code kernel.now) (cell_in rows.old.items place)) }
{
    let held = gather(rows, place, cell);
    if held == 0 {
        return;
    }
    kernel.apply(cell, flows);
    scatter(rows, place, cell);
}
