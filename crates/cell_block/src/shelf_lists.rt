//! Lists of shelves: those of the partitions of a mesh, and restarting all.

ghost use Rattle.std.specs.Prelude.{◌≡◌, ◌+◌, ◌-◌, ◌<◌, ◌≤◌, ◌^◌, IfOk, IsSome, None, Some, map};
ghost use Rattle.alloc_epochs.specs.Shelf.{IsOn, key_at};
ghost use Rattle.mesh_rules.specs.Sums.{table};
ghost use Rattle.cell_block.specs.Partitions.{IsChanged, lists_of, new_shelf, restarted};

use alloc_epochs::Shelf;
use mesh_num::NoMemory;
use sparse_pool::Place;
use std::alloc::Global;

/// An empty shelf for each partition of so many leaves.
pub fn make_shelves(
    alloc: Global,
    size: u32,
    leaves: u32,
    fields: u32,
) -> Result<Vec<Shelf>, NoMemory>
    requires some { 1 ≤ size }
    requires most { size ≤ 65536 }
    requires few_leaves { leaves ≤ 65536 }
    requires few_fields { fields ≤ 256 }
    ensures { IfOk result (λ shelves. shelves.items ≡ table (lists_of size leaves) (new_shelf size leaves fields)) }
{
    let count = (leaves + size - 1) / size;
    let mut shelves = Vec::with_capacity(alloc, count as usize)?;
    for list in 0..count {
        let first = list * size;
        let blocks = size.min(leaves - first);
        let shelf = Shelf::new(alloc, first, blocks, fields)?;
        shelves.push(shelf)?;
    }
    Ok(shelves)
}

/// Counts from 0 again on some shelves.
fn restart_each(shelves: &mut [Shelf])
    ensures { shelves.new ≡ map restarted shelves.old }
{
    for shelf in shelves.iter_mut() {
        shelf.restart_epoch();
    }
}

/// Counts from 0 again on all shelves.
pub fn restart_all(shelves: &mut Vec<Shelf>)
    ensures { shelves.new.items ≡ map restarted shelves.old.items }
{
    restart_each(shelves);
}

/// Allocates a place of a shelf that has room for one more.
pub fn allocate_on(shelf: &mut Shelf, at: Place, key: usize)
    requires on { IsOn shelf.old at }
    requires absent { key_at shelf.old at ≡ None }
    requires room { 1 ≤ shelf.old.spare }
    requires epoch { shelf.old.epoch < 2 ^ 64 - 1 }
    ensures changed { IsChanged shelf.old shelf.new at (Some key) }
    ensures spare { shelf.old.spare ≤ shelf.new.spare + 1 }
{
    shelf.allocate(at, key).unwrap();
}

/// Frees an allocated place of a shelf, and answers its key.
pub fn release_from(shelf: &mut Shelf, at: Place) -> usize
    requires present { IsSome (key_at shelf.old at) }
    requires epoch { shelf.old.epoch < 2 ^ 64 - 1 }
    ensures key { key_at shelf.old at ≡ Some result }
    ensures changed { IsChanged shelf.old shelf.new at None }
    ensures spare { shelf.old.spare ≤ shelf.new.spare }
{
    shelf.release(at).unwrap()
}
