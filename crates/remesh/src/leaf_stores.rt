//! Filling a leaf of the next tree.

ghost use Rattle.std.specs.Prelude.{◌≡◌, OnOk, slice_set};
ghost use Rattle.remesh.specs.Leaves.{plain};
ghost use Rattle.remesh.specs.Fields.{AreOnLeaf, CanCarry};
ghost use Rattle.remesh.specs.Sources.{counter_after};
ghost use Rattle.remesh.specs.Stores.{CanStore, IsLeafStored};

use crate::leaf::NewLeaf;
use crate::sources::{counter_of, idle_of};
use crate::stores::store;
use cell_block::MeshState;
use field_bufs::Bufs;
use mesh_num::NoMemory;

/// Stores the buffers of a leaf with their idle counts.
fn store_fields(mesh: &mut MeshState, leaf: &NewLeaf, bufs: Bufs) -> Result<(), NoMemory>
    requires leaf { CanCarry (plain leaf.now) }
    requires mesh { CanStore (plain leaf.now) mesh.old }
    requires bufs { AreOnLeaf (plain leaf.now) bufs }
    ensures stored { OnOk result (IsLeafStored (plain leaf.now) mesh.old mesh.new) }
    ensures counters { OnOk result (mesh.new.counters ≡ mesh.old.counters) }
{
    let _ = mesh.tree();
    let mut bufs = bufs.into_vec();
    while let Some(buf) = bufs.pop() {
        let idle = idle_of(leaf, buf.field);
        store(mesh, buf, idle)?;
    }
    Ok(())
}

/// Stores a leaf: the buffers of the fields that come to it, and its tag counter.
pub(crate) fn store_leaf(mesh: &mut MeshState, leaf: &NewLeaf, bufs: Bufs) -> Result<(), NoMemory>
    requires leaf { CanCarry (plain leaf.now) }
    requires mesh { CanStore (plain leaf.now) mesh.old }
    requires bufs { AreOnLeaf (plain leaf.now) bufs }
    ensures stored { OnOk result (IsLeafStored (plain leaf.now) mesh.old mesh.new) }
    ensures counters { OnOk result (mesh.new.counters
        ≡ slice_set mesh.old.counters leaf.now.number (counter_after leaf.now.old.now leaf.now.origin)) }
{
    store_fields(mesh, leaf, bufs)?;
    mesh.set_counter(leaf.number, counter_of(leaf));
    Ok(())
}
