//! A kernel in all interior cells of a block.

ghost use Rattle.std.specs.Prelude.{◌≡◌, ◌+◌, ◌*◌, ◌<◌, ◌≤◌, ◌^◌, ◌++◌, ℕ, [], IfOk, OnOk, length, replicate, slice_index, sum, All};
ghost use Rattle.package_fields.specs.Flow.{IsBelow};
ghost use Rattle.block_layout.specs.Layouts.{interior_len};
ghost use Rattle.react_kernel.specs.Blocks.{AreOf, HasGained, HasReacted, inner_place, totals_at};
ghost use Rattle.react_kernel.specs.BlockSteps.{Reached};

use crate::cell::react_cell;
use crate::fresh::Fresh;
use block_layout::Layout;
use field_bufs::{Bufs, FieldBuf};
use mesh_num::NoMemory;
use package_fields::{CellKernel, Flow, Flows};
use std::alloc::Global;
use std::mem;

/// Where the first interior cell of a row lies. Rows along x1 are counted x2 fastest.
fn row_start(layout: &Layout, row: usize) -> usize
    requires { row < slice_index layout.now.cells 1 * slice_index layout.now.cells 2 }
    ensures { result ≡ inner_place layout.now (row * slice_index layout.now.cells 0) }
{
    let along2 = layout.cells[1] as usize;
    layout.at([
        layout.ghost_layers(0) as u32,
        (layout.ghost_layers(1) + row % along2) as u32,
        (layout.ghost_layers(2) + row / along2) as u32,
    ])
}

/// Applies a kernel in each interior cell of a block, row by row.
fn react_cells<C: CellKernel>(
    kernel: &C,
    layout: &Layout,
    fresh: Fresh,
    bufs: &mut [FieldBuf],
    made: &mut Vec<FieldBuf>,
    cell: &mut [u64],
    flows: &mut [Flow],
) -> Result<(), NoMemory>
    requires fields { C.fields kernel.now ≡ length flows.old }
    requires few { length flows.old < 2 ^ 32 }
    requires cell { cell.old ≡ replicate (length flows.old) 0 }
    requires bufs { AreOf layout.now fresh.block (length flows.old) bufs.old }
    requires made { made.old.items ≡ [] }
    requires small_cells { (k : ℕ) → k < interior_len layout.now
        → sum (totals_at bufs.old (length flows.old) (inner_place layout.now k)) < 2 ^ 62 }
    requires small_flows { All (IsBelow (2 ^ 98)) flows.old }
    ensures { OnOk result (Reached (C.reacts (C.code kernel.now)) layout.now fresh.block fresh.stamp bufs.old
        flows.old (interior_len layout.now) bufs.new made.new.items flows.new) }
{
    let along1 = layout.cells[0] as usize;
    let rows = layout.cells[1] as usize * layout.cells[2] as usize;
    for row in 0..rows {
        let first = row_start(layout, row);
        for x in 0..along1 {
            react_cell(kernel, layout, fresh, first + x, bufs, made, cell, flows)?;
        }
    }
    Ok(())
}

/// Applies a kernel in each interior cell of a block, of which the buffers are those of the fields that are allocated
/// there; the others have zeros. Changes the buffers and answers the new ones, which are those of the fields that had
/// none and of which the kernel makes something in some cell, by rising field, with this stamp and nothing through
/// their faces. Ghosts, stamps and what passes the faces of the buffers stay. Each flow gains what was made and used
/// of its field in all cells. After want of memory the buffers and flows hold anything; more fields than buffers can
/// name are refused like that too.
pub fn react_block<C: CellKernel>(
    alloc: Global,
    kernel: &C,
    layout: &Layout,
    block: u32,
    stamp: u32,
    bufs: &mut Bufs,
    flows: &mut Flows,
) -> Result<Bufs, NoMemory>
    requires fields { C.fields kernel.now ≡ length flows.old }
    requires bufs { AreOf layout.now block (length flows.old) bufs.old }
    requires small_cells { (k : ℕ) → k < interior_len layout.now
        → sum (totals_at bufs.old (length flows.old) (inner_place layout.now k)) < 2 ^ 62 }
    requires small_flows { All (IsBelow (2 ^ 98)) flows.old }
    ensures reacted { IfOk result (λ made.
        HasReacted (C.reacts (C.code kernel.now)) layout.now block stamp (length flows.old) bufs.old bufs.new made) }
    ensures gained { OnOk result (HasGained (C.reacts (C.code kernel.now)) layout.now bufs.old
        (interior_len layout.now) flows.old flows.new) }
{
    let mut made = Vec::new(alloc);
    if bufs.is_empty() {
        return Ok(Bufs::from_vec(made));
    }
    if flows.len() > u32::MAX as usize {
        return Err(NoMemory);
    }
    let fresh = Fresh {
        alloc,
        block,
        stamp,
    };
    let mut cell = vec![in alloc; 0u64; flows.len()]?;
    let mut here = mem::replace(bufs, Bufs::new(alloc)).into_vec();
    let mut passed = mem::replace(flows, Flows::new(alloc)).into_vec();
    react_cells(
        kernel,
        layout,
        fresh,
        &mut here,
        &mut made,
        &mut cell,
        &mut passed,
    )?;
    *bufs = Bufs::from_vec(here);
    *flows = Flows::from_vec(passed);
    Ok(Bufs::from_vec(made))
}
