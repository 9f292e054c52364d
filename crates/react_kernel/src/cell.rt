//! A kernel in one cell of a block.

ghost use Rattle.std.specs.Prelude.{◌≡◌, ◌<◌, ◌≤◌, ◌^◌, ◌++◌, ℕ, map, length, replicate, sum, All, OnOk};
ghost use Rattle.package_fields.specs.Flow.{IsBelow};
ghost use Rattle.package_fields.specs.Kernel.{with_reacted};
ghost use Rattle.block_layout.specs.Layouts.{len};
ghost use Rattle.react_kernel.specs.Blocks.{AreOf, totals_at};
ghost use Rattle.react_kernel.specs.BlockSteps.{AreFresh, CellStep, gathered, sum_there, with_total};

use crate::fresh::{Fresh, add_missing};
use block_layout::Layout;
use field_bufs::FieldBuf;
use mesh_num::NoMemory;
use package_fields::{CellKernel, Flow};

/// Puts the totals of some buffers at a place into a cell, and answers their sum.
fn gather(bufs: &[FieldBuf], place: usize, cell: &mut [u64]) -> u64
    requires fields { All (λ buf. buf.field < length cell.old) bufs.now }
    requires sizes { All (λ buf. place < length buf.cells) bufs.now }
    requires small { sum_there place bufs.now < 2 ^ 64 }
    ensures cell { cell.new ≡ gathered place bufs.now cell.old }
    ensures sum { result ≡ sum_there place bufs.now }
{
    let mut sum = 0;
    for buf in bufs {
        let total = buf.cells.as_slice()[place];
        cell[buf.field as usize] = total;
        sum += total;
    }
    sum
}

/// Puts the totals of a block's buffers at a place into a cell of zeros, and answers their sum.
fn gather_all(
    layout: &Layout,
    fresh: Fresh,
    bufs: &[FieldBuf],
    made: &[FieldBuf],
    place: usize,
    cell: &mut [u64],
) -> u64
    requires cell { cell.old ≡ replicate (length cell.old) 0 }
    requires place { place < len layout.now }
    requires bufs { AreOf layout.now fresh.block (length cell.old) bufs.now }
    requires made { AreFresh layout.now fresh.block fresh.stamp (length cell.old) bufs.now made.now }
    requires small { sum (totals_at (bufs.now ++ made.now) (length cell.old) place) < 2 ^ 62 }
    ensures cell { cell.new ≡ totals_at (bufs.now ++ made.now) (length cell.old) place }
    ensures sum { result ≡ sum cell.new }
{
    let low = gather(bufs, place, cell);
    let high = gather(made, place, cell);
    low + high
}

/// Sets the total of a buffer at a place to that of a cell.
fn set_total(buf: &mut FieldBuf, place: usize, cell: &[u64])
    requires field { buf.old.field < length cell.now }
    requires size { place < length buf.old.cells }
    ensures { buf.new ≡ with_total place cell.now buf.old }
{
    buf.cells.as_mut_slice()[place] = cell[buf.field as usize];
}

/// Puts the totals of a cell into some buffers at a place.
fn scatter(bufs: &mut [FieldBuf], place: usize, cell: &[u64])
    requires fields { All (λ buf. buf.field < length cell.now) bufs.old }
    requires sizes { All (λ buf. place < length buf.cells) bufs.old }
    ensures { bufs.new ≡ map (with_total place cell.now) bufs.old }
{
    for buf in bufs.iter_mut() {
        set_total(buf, place, cell);
    }
}

/// The same for buffers that can grow.
fn scatter_made(made: &mut Vec<FieldBuf>, place: usize, cell: &[u64])
    requires fields { All (λ buf. buf.field < length cell.now) made.old.items }
    requires sizes { All (λ buf. place < length buf.cells) made.old.items }
    ensures { made.new.items ≡ map (with_total place cell.now) made.old.items }
{
    scatter(made, place, cell);
}

/// Applies a kernel in the cell at a place of a block. The list `cell` serves to hold its totals, and is zeros before
/// and after.
pub fn react_cell<C: CellKernel>(
    kernel: &C,
    layout: &Layout,
    fresh: Fresh,
    place: usize,
    bufs: &mut [FieldBuf],
    made: &mut Vec<FieldBuf>,
    cell: &mut [u64],
    flows: &mut [Flow],
) -> Result<(), NoMemory>
    requires fields { C.fields kernel.now ≡ length flows.old }
    requires few { length flows.old < 2 ^ 32 }
    requires cell { cell.old ≡ replicate (length flows.old) 0 }
    requires place { place < len layout.now }
    requires bufs { AreOf layout.now fresh.block (length flows.old) bufs.old }
    requires made { AreFresh layout.now fresh.block fresh.stamp (length flows.old) bufs.old made.old.items }
    requires small_cell { sum (totals_at (bufs.old ++ made.old.items) (length flows.old) place) < 2 ^ 62 }
    requires small_flows { All (IsBelow (2 ^ 99)) flows.old }
    ensures cell { OnOk result (cell.new ≡ replicate (length flows.old) 0) }
    ensures flows { OnOk result (flows.new
        ≡ with_reacted flows.old (C.reacts (C.code kernel.now)
        (totals_at (bufs.old ++ made.old.items) (length flows.old) place))) }
    ensures bufs { OnOk result (AreOf layout.now fresh.block (length flows.old) bufs.new) }
    ensures made { OnOk result (AreFresh layout.now fresh.block fresh.stamp
        (length flows.old) bufs.new made.new.items) }
    ensures step { OnOk result (CellStep (C.reacts (C.code kernel.now)
        (totals_at (bufs.old ++ made.old.items) (length flows.old) place)) place
        (length flows.old) bufs.old made.old.items bufs.new made.new.items) }
{
    let held = gather_all(layout, fresh, bufs, made, place, cell);
    if held == 0 {
        return Ok(());
    }
    kernel.apply(cell, flows);
    add_missing(layout, fresh, bufs, made, cell, held)?;
    scatter(bufs, place, cell);
    scatter_made(made, place, cell);
    cell.fill(0);
    Ok(())
}
