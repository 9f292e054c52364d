//! Raising the stamps of a block.

ghost use Rattle.std.specs.Prelude.{◌≡◌, ◌-◌, ◌<◌, ◌^◌, ℕ, Some};
ghost use Rattle.alloc_epochs.specs.Shelf.{place_on};
ghost use Rattle.field_bufs.specs.declared.buf.FieldBuf.{FieldBuf};
ghost use Rattle.cell_block.specs.Partitions.{IsOnShelves};
ghost use Rattle.cell_block.specs.Store.{AreStamped, AreTied, HaveRoomForStamp};

use crate::kept::{Kept, stamp_under};
use crate::shelves::Shelves;
use slab::Slab;

/// Raises by one the stamp of each buffer of a block that is not lent: a step for each place of the block that is
/// allocated, and for each page of 32 fields.
pub fn stamp_block(shelves: &Shelves, buffers: &mut Slab<Kept>, block: u32)
    requires block { block < shelves.now.leaves }
    requires shape { IsOnShelves shelves.now }
    requires tied { AreTied shelves.now buffers.old }
    requires stamps { HaveRoomForStamp block buffers.old }
    ensures { AreStamped block buffers.old buffers.new }
{
    let mut from = 0;
    while let Some(next) = shelves.next_field(block, from) {
        stamp_under(buffers, next.key);
        from = next.field + 1;
    }
}
