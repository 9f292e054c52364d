//! Filling the places of a mesh state.

ghost use Rattle.std.specs.Prelude.{◌≡◌, ◌+◌, ◌-◌, ◌*◌, ◌<◌, ◌≤◌, ◌^◌, ℕ, None, IsSome, OnOk, length};
ghost use Rattle.alloc_epochs.specs.Shelf.{place_on};
ghost use Rattle.cell_block.specs.State.{Fits, IsIn, buffer_at, entry_at, epoch_at, idle_at, leaf_count, list_of, place_of};
ghost use Rattle.cell_block.specs.Rules.{IsWhole};
ghost use Rattle.remesh.specs.Stores.{Fills};

use cell_block::MeshState;
use field_bufs::FieldBuf;
use mesh_num::NoMemory;
use sparse_pool::Place;

/// Puts a buffer in the place of the one that is there.
fn replace(mesh: &mut MeshState, buf: FieldBuf)
    requires within { IsIn mesh.old (place_of buf) }
    requires home { IsSome (buffer_at mesh.old (place_of buf)) }
    requires sizes { Fits mesh.old buf }
    ensures { Fills mesh.old mesh.new (place_of buf) buf (idle_at mesh.old (place_of buf)) }
{
    let _ = mesh.tree();
    let _former = mesh.take_out(Place {
        block: buf.block,
        field: buf.field,
    });
    mesh.put_back(buf);
}

/// Puts a buffer in a place that is not allocated.
fn allocate(mesh: &mut MeshState, buf: FieldBuf) -> Result<(), NoMemory>
    requires within { IsIn mesh.old (place_of buf) }
    requires absent { entry_at mesh.old (place_of buf) ≡ None }
    requires epochs { (list : ℕ) → epoch_at mesh.old list < 2 ^ 64 - 1 }
    requires sizes { Fits mesh.old buf }
    ensures { OnOk result (Fills mesh.old mesh.new (place_of buf) buf 0) }
{
    let _ = mesh.tree();
    let list = mesh.partition(buf.block);
    mesh.reserve(list, 1)?;
    mesh.add(buf);
    Ok(())
}

/// Puts a buffer in its place.
fn put(mesh: &mut MeshState, buf: FieldBuf) -> Result<(), NoMemory>
    requires within { IsIn mesh.old (place_of buf) }
    requires whole { IsWhole mesh.old }
    requires epochs { (list : ℕ) → epoch_at mesh.old list < 2 ^ 64 - 1 }
    requires sizes { Fits mesh.old buf }
    ensures { OnOk result (Fills mesh.old mesh.new (place_of buf) buf (idle_at mesh.old (place_of buf))) }
{
    let at = Place {
        block: buf.block,
        field: buf.field,
    };
    if mesh.allocated(at) {
        replace(mesh, buf);
        Ok(())
    } else {
        allocate(mesh, buf)
    }
}

/// Puts a buffer with an idle count in its place.
pub(crate) fn store(mesh: &mut MeshState, buf: FieldBuf, idle: u32) -> Result<(), NoMemory>
    requires within { IsIn mesh.old (place_of buf) }
    requires whole { IsWhole mesh.old }
    requires epochs { (list : ℕ) → epoch_at mesh.old list < 2 ^ 64 - 1 }
    requires sizes { Fits mesh.old buf }
    ensures fills { OnOk result (Fills mesh.old mesh.new (place_of buf) buf idle) }
    ensures whole { OnOk result (IsWhole mesh.new) }
{
    let at = Place {
        block: buf.block,
        field: buf.field,
    };
    put(mesh, buf)?;
    let _ = mesh.tree();
    mesh.set_idle(at, idle);
    Ok(())
}
