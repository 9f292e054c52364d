//! The buffers that a kernel calls for.

ghost use Rattle.std.specs.Prelude.{◌≡◌, ◌<◌, ◌≤◌, ◌+◌, ◌^◌, ℕ, length, slice_index, sum, All, OnOk};
ghost use Rattle.block_layout.specs.Layouts.{len};
ghost use Rattle.react_kernel.specs.Blocks.{AreOf, has_field};
ghost use Rattle.react_kernel.specs.BlockSteps.{AreFresh, HasRoom, HasRoomFor, held_sum, lower};

use block_layout::Layout;
use field_bufs::FieldBuf;
use mesh_num::NoMemory;
use std::alloc::Global;

/// What the new buffers of a block have in common.
#[derive(Clone, Copy)]
pub struct Fresh {
    pub alloc: Global,
    pub block: u32,
    pub stamp: u32,
}

/// Whether a field has a buffer.
fn is_there(bufs: &[FieldBuf], field: u32) -> bool
    ensures { result ≡ has_field bufs.now field }
{
    bufs.iter().any(|buf| buf.field == field)
}

/// How many buffers are of a lower field.
fn count_below(bufs: &[FieldBuf], field: u32) -> usize
    ensures value { result ≡ lower bufs.now field }
    ensures most { result ≤ length bufs.now }
{
    let mut count = 0;
    for buf in bufs {
        if buf.field < field {
            count += 1;
        }
    }
    count
}

/// Adds a buffer of zeros for a field where it has none and its total in a cell is not zero.
fn make_room_for(
    layout: &Layout,
    fresh: Fresh,
    bufs: &[FieldBuf],
    made: &mut Vec<FieldBuf>,
    cell: &[u64],
    field: u32,
) -> Result<(), NoMemory>
    requires within { field < length cell.now }
    requires made { AreFresh layout.now fresh.block fresh.stamp (length cell.now) bufs.now made.old.items }
    ensures made { OnOk result (AreFresh layout.now fresh.block fresh.stamp (length cell.now) bufs.now made.new.items) }
    ensures room { OnOk result (HasRoomFor field cell.now bufs.now made.old.items made.new.items) }
{
    if cell[field as usize] == 0 || is_there(bufs, field) || is_there(made, field) {
        return Ok(());
    }
    let buf = FieldBuf::zeros(fresh.alloc, layout, fresh.block, field, fresh.stamp)?;
    let at = count_below(made, field);
    made.insert(at, buf)?;
    Ok(())
}

/// Adds a buffer of zeros for each field that has none and whose total in a cell is not zero.
fn make_room(
    layout: &Layout,
    fresh: Fresh,
    bufs: &[FieldBuf],
    made: &mut Vec<FieldBuf>,
    cell: &[u64],
) -> Result<(), NoMemory>
    requires few { length cell.now < 2 ^ 32 }
    requires made { AreFresh layout.now fresh.block fresh.stamp (length cell.now) bufs.now made.old.items }
    ensures made { OnOk result (AreFresh layout.now fresh.block fresh.stamp (length cell.now) bufs.now made.new.items) }
    ensures room { OnOk result (HasRoom (length cell.now) cell.now bufs.now made.old.items made.new.items) }
{
    for field in 0..cell.len() as u32 {
        make_room_for(layout, fresh, bufs, made, cell, field)?;
    }
    Ok(())
}

/// The sum of a cell's totals over the fields of some buffers.
fn sum_over(bufs: &[FieldBuf], cell: &[u64]) -> u64
    requires fields { All (λ buf. buf.field < length cell.now) bufs.now }
    requires small { held_sum bufs.now cell.now < 2 ^ 64 }
    ensures { result ≡ held_sum bufs.now cell.now }
{
    let mut held = 0;
    for buf in bufs {
        held += cell[buf.field as usize];
    }
    held
}

/// Adds the buffers that the totals of a cell call for, where these add up to `held`. None is looked for where the
/// fields that have buffers hold all of that.
pub fn add_missing(
    layout: &Layout,
    fresh: Fresh,
    bufs: &[FieldBuf],
    made: &mut Vec<FieldBuf>,
    cell: &[u64],
    held: u64,
) -> Result<(), NoMemory>
    requires few { length cell.now < 2 ^ 32 }
    requires held { held ≡ sum cell.now }
    requires bufs { AreOf layout.now fresh.block (length cell.now) bufs.now }
    requires made { AreFresh layout.now fresh.block fresh.stamp (length cell.now) bufs.now made.old.items }
    ensures made { OnOk result (AreFresh layout.now fresh.block fresh.stamp (length cell.now) bufs.now made.new.items) }
    ensures room { OnOk result (HasRoom (length cell.now) cell.now bufs.now made.old.items made.new.items) }
{
    if sum_over(bufs, cell) + sum_over(made, cell) == held {
        return Ok(());
    }
    make_room(layout, fresh, bufs, made, cell)
}
