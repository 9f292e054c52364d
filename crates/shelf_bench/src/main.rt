//! A million places come and a million go on a shelf of 16,384 blocks with 256 fields, in an order that jumps about:
//! each place of a series is allocated, or freed where it is there, and then the series is run through once more,
//! which frees what is left. Prints how many came and went; `bench/shelves.sh` measures the time.
#![tactic(auto)]

ghost use Rattle.std.specs.Prelude.{◌≡◌, ◌≤◌, ◌<◌, ◌+◌, ◌-◌, ◌^◌, IfOk};
ghost use Rattle.alloc_epochs.specs.Shelf.{IsOn};
ghost use Rattle.shelf_bench.specs.Shapes.{KeepsShape};

use alloc_epochs::Shelf;
use mesh_num::NoMemory;
use sparse_pool::Place;
use std::alloc::Global;
use std::io;

const BLOCKS: u32 = 16_384;

const FIELDS: u32 = 256;

const CHANGES: u32 = 2_000_000;

fn main(rt: HostRuntime) -> io::Result<()> {
    match count_of(rt.alloc()) {
        Ok(came) => {
            let went = CHANGES - came;
            println!(rt; "{came} came, {went} went")
        }
        Err(_) => println!(rt; "no memory"),
    }
}

/// How many of the places came.
fn count_of(alloc: Global) -> Result<u32, NoMemory>
    ensures { IfOk result (λ came. came ≤ CHANGES) }
{
    let mut shelf = Shelf::new(alloc, 0, BLOCKS, FIELDS)?;
    let mut came = 0;
    let mut state = 1u32;
    for i in 0..CHANGES {
        if i == CHANGES / 2 {
            state = 1;
        }
        state = state.wrapping_mul(1_664_525).wrapping_add(1_013_904_223);
        let at = Place {
            block: (state >> 16) % BLOCKS,
            field: (state >> 8) % FIELDS,
        };
        if change(&mut shelf, at)? {
            came += 1;
        }
    }
    Ok(came)
}

/// Allocates a place, or frees it where it is allocated, and says whether it came.
fn change(shelf: &mut Shelf, at: Place) -> Result<bool, NoMemory>
    requires on { IsOn shelf.old at }
    requires epoch { shelf.old.epoch < 2 ^ 64 - 1 }
    ensures shape { KeepsShape shelf.old shelf.new }
{
    if shelf.release(at).is_some() {
        return Ok(false);
    }
    shelf.allocate(at, at.field as usize)?;
    Ok(true)
}
