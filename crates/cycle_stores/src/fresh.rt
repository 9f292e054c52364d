//! Buffers as a cycle begins.

ghost use Rattle.std.specs.Prelude.{◌≡◌, IfOk, length, replicate};
ghost use Rattle.block_layout.specs.Layouts.{len};
ghost use Rattle.cell_boxes.specs.Boxes.{StaysOffBox};
ghost use Rattle.field_bufs.specs.Buffers.{HasSizes};
ghost use Rattle.cell_block.specs.Rules.{interior_of};
ghost use Rattle.cell_block.specs.Whole.{extents_of, interior_box};
ghost use Rattle.cycle_stores.specs.Openings.{IsFresh};

use block_layout::Layout;
use cell_boxes::{BoxIn, CopyRow, write_box};
use cell_lists::Cells;
use field_bufs::FieldBuf;
use mesh_num::NoMemory;
use std::alloc::Global;

/// The interior of a block in its list.
fn interior_box(layout: &Layout) -> BoxIn
    ensures { result ≡ interior_box layout.now }
{
    BoxIn {
        first: 0,
        widths: [layout.width(0), layout.width(1), layout.width(2)],
        low: [
            layout.ghost_layers(0),
            layout.ghost_layers(1),
            layout.ghost_layers(2),
        ],
    }
}

/// Copies a block's own totals from one of its lists to another, which keeps its ghosts.
fn copy_own(layout: &Layout, from: &[u64], into: &mut [u64])
    requires from { length from.now ≡ len layout.now }
    requires into { length into.old ≡ len layout.now }
    ensures own { interior_of layout.now into.new ≡ interior_of layout.now from.now }
    ensures rest { StaysOffBox (extents_of layout.now) (interior_box layout.now) into.old into.new }
{
    let extents = [
        layout.cells[0] as usize,
        layout.cells[1] as usize,
        layout.cells[2] as usize,
    ];
    let own = interior_box(layout);
    write_box(&CopyRow, extents, from, own, into, own);
}

/// The list of a block with the own totals of another one, and with zeros in its ghosts.
fn own_alone(alloc: Global, layout: &Layout, cells: &[u64]) -> Result<Cells, NoMemory>
    requires { length cells.now ≡ len layout.now }
    ensures size { IfOk result (λ list. length list ≡ len layout.now) }
    ensures own { IfOk result (λ list. interior_of layout.now list ≡ interior_of layout.now cells.now) }
    ensures rest { IfOk result (λ list.
        StaysOffBox (extents_of layout.now) (interior_box layout.now) (replicate (len layout.now) 0) list) }
{
    let mut list = vec![in alloc; 0u64; layout.len()]?;
    copy_own(layout, cells, list.as_mut_slice());
    Ok(Cells::of(list))
}

/// A buffer with the own totals of another one, with nothing in its ghosts and through its faces, and with the stamp 0.
pub fn fresh(alloc: Global, layout: &Layout, was: &FieldBuf) -> Result<FieldBuf, NoMemory>
    requires { HasSizes layout.now was.now }
    ensures fresh { IfOk result (IsFresh layout.now was.now) }
    ensures sizes { IfOk result (HasSizes layout.now) }
{
    let cells = own_alone(alloc, layout, was.cells.as_slice())?;
    let right = Cells::zeros(alloc, layout.face_count())?;
    let left = Cells::zeros(alloc, layout.face_count())?;
    Ok(FieldBuf {
        block: was.block,
        field: was.field,
        stamp: 0,
        cells,
        right,
        left,
    })
}
