//! The own totals of a block.

ghost use Rattle.std.specs.Prelude.{◌≡◌, ◌+◌, ◌*◌, ◌<◌, ◌≤◌, ◌^◌, ℕ, length, slice_index, sum};
ghost use Rattle.mesh_rules.specs.Mask.{some_above};
ghost use Rattle.block_layout.specs.Layouts.{len};
ghost use Rattle.react_kernel.specs.Blocks.{inner_place};
ghost use Rattle.cycle_kernels.specs.Lists.{own_totals};

use block_layout::Layout;
use sparse_pool::is_idle;

/// Where the first own cell of a row lies. Rows along x1 are counted x2 fastest.
fn row_start(layout: &Layout, row: usize) -> usize
    requires { row < slice_index layout.now.cells 1 * slice_index layout.now.cells 2 }
    ensures place { result ≡ inner_place layout.now (row * slice_index layout.now.cells 0) }
    ensures ends { result + slice_index layout.now.cells 0 ≤ len layout.now }
{
    let along2 = layout.cells[1] as usize;
    layout.at([
        layout.ghost_layers(0) as u32,
        (layout.ghost_layers(1) + row % along2) as u32,
        (layout.ghost_layers(2) + row / along2) as u32,
    ])
}

/// A row of a block's own totals.
fn own_row<'a>(layout: &Layout, cells: &'a [u64], row: usize) -> &'a [u64]
    requires cells { length cells.now ≡ len layout.now }
    requires row { row < slice_index layout.now.cells 1 * slice_index layout.now.cells 2 }
    ensures size { length result.now ≡ slice_index layout.now.cells 0 }
    ensures totals { (x : ℕ) → x < slice_index layout.now.cells 0 → slice_index result.now x
        ≡ slice_index (own_totals layout.now cells.now) (row * slice_index layout.now.cells 0 + x) }
{
    let first = row_start(layout, row);
    &cells[first..first + layout.cells[0] as usize]
}

/// The sum of a row.
fn row_sum(row: &[u64]) -> u128
    requires { length row.now ≤ 64 }
    ensures value { result ≡ sum row.now }
    ensures most { result ≤ 64 * 2 ^ 64 }
{
    let mut total = 0u128;
    for number in row {
        total += u128::from(*number);
    }
    total
}

/// The sum of a block's own totals.
pub fn own_total(layout: &Layout, cells: &[u64]) -> u128
    requires { length cells.now ≡ len layout.now }
    ensures value { result ≡ sum (own_totals layout.now cells.now) }
    ensures most { result ≤ 2 ^ 82 }
{
    let rows = layout.cells[1] as usize * layout.cells[2] as usize;
    let mut total = 0u128;
    for row in 0..rows {
        total += row_sum(own_row(layout, cells, row));
    }
    total
}

/// Whether some own total of a block is above a threshold.
pub fn has_above(layout: &Layout, cells: &[u64], threshold: u64) -> bool
    requires { length cells.now ≡ len layout.now }
    ensures { result ≡ some_above threshold (own_totals layout.now cells.now) }
{
    let rows = layout.cells[1] as usize * layout.cells[2] as usize;
    for row in 0..rows {
        if !is_idle(own_row(layout, cells, row), threshold) {
            return true;
        }
    }
    false
}
