//! The buffers of a leaf of the next tree.

ghost use Rattle.std.specs.Prelude.{◌≡◌, ◌<◌, ℕ, IfOk, true};
ghost use Rattle.remesh.specs.Leaves.{plain};
ghost use Rattle.remesh.specs.Fields.{AreOnLeaf, CanCarry, IsOnLeaf, comes};

use crate::cells::coming_cells;
use crate::leaf::NewLeaf;
use crate::sources::next_coming;
use cell_lists::Cells;
use field_bufs::{Bufs, FieldBuf};
use mesh_num::NoMemory;
use std::alloc::Global;

/// The buffer of a field that comes to a leaf.
fn coming_field(alloc: Global, leaf: &NewLeaf, field: u32) -> Result<FieldBuf, NoMemory>
    requires leaf { CanCarry (plain leaf.now) }
    requires field { field < leaf.now.old.now.fields }
    requires comes { comes (plain leaf.now) field ≡ true }
    ensures buffer { IfOk result (IsOnLeaf (plain leaf.now)) }
    ensures field { IfOk result (λ buf. buf.field ≡ field) }
{
    let cells = coming_cells(alloc, leaf, field)?;
    let right = Cells::zeros(alloc, leaf.layout.face_count())?;
    let left = Cells::zeros(alloc, leaf.layout.face_count())?;
    Ok(FieldBuf {
        block: leaf.number,
        field,
        stamp: 0,
        cells,
        right,
        left,
    })
}

/// The buffers of all fields that come to a leaf.
pub(crate) fn coming_fields(alloc: Global, leaf: &NewLeaf) -> Result<Bufs, NoMemory>
    requires { CanCarry (plain leaf.now) }
    ensures { IfOk result (AreOnLeaf (plain leaf.now)) }
{
    let mut bufs = Bufs::new(alloc);
    let mut from = 0;
    while let Some(field) = next_coming(leaf, from) {
        bufs.push(coming_field(alloc, leaf, field)?)?;
        from = field + 1;
    }
    Ok(bufs)
}
