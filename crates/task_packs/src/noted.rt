//! The places of noted packs.

ghost use Rattle.std.specs.Prelude.{◌≡◌, ◌<◌, IfOk, length};
ghost use Rattle.std.specs.Option.{option_map};
ghost use Rattle.pack_cache.specs.Notes.{noted_under};
ghost use Rattle.task_packs.specs.Copies.{places_of};

use mesh_num::NoMemory;
use pack_cache::PackNotes;
use sparse_pool::{PackKind, Place, Places};
use std::alloc::Global;

/// A copy of places.
pub fn copy_of(alloc: Global, places: &[Place]) -> Result<Places, NoMemory>
    ensures { IfOk result (λ copy. copy ≡ places.now) }
{
    let copy = Vec::from_slice(alloc, places)?;
    Ok(Places::from_vec(copy))
}

/// The places of the pack that is noted of a list and a kind at an epoch, copied; None exactly where none is noted.
pub fn noted_places(
    alloc: Global,
    notes: &PackNotes,
    list: u32,
    kind: PackKind,
    epoch: u64,
) -> Result<Option<Places>, NoMemory>
    requires { list < length notes.now }
    ensures { IfOk result (λ found. found ≡ option_map places_of (noted_under notes.now list kind epoch)) }
{
    match notes.lookup(list, kind, epoch) {
        Some(pack) => {
            let places = copy_of(alloc, pack.places.as_slice())?;
            Ok(Some(places))
        }
        None => Ok(None),
    }
}
