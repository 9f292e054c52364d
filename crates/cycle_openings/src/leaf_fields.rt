//! The fields that leaves have.

ghost use Rattle.std.specs.Prelude.{◌≡◌, ◌<◌, true, IfOk, Some};
ghost use Rattle.cell_block.specs.State.{IsIn, is_allocated, leaf_count};
ghost use Rattle.cell_block.specs.Rules.{IsWhole};
ghost use Rattle.cycle_openings.specs.LeafFields.{AreFieldsOn, AreOnLeaves, IsFieldAt};

use cell_block::MeshState;
use cell_lists::Cells;
use item_lists::Items;
use mesh_num::NoMemory;
use sparse_pool::Place;
use std::alloc::Global;

/// A field that is allocated on a leaf.
#[derive(Debug, Drop)]
pub struct LeafField {
    /// The number of the field.
    pub field: u32,
    /// At how many checks in a row it was idle there.
    pub idle: u32,
    /// The totals of the block's own cells, x1 fastest.
    pub totals: Cells,
}

/// The fields that are allocated on a leaf, by rising number.
pub type LeafFields = Items<LeafField>;

/// What is copied of a field that is allocated on a leaf.
fn field_at(alloc: Global, mesh: &MeshState, at: Place) -> Result<LeafField, NoMemory>
    requires within { IsIn mesh.now at }
    requires allocated { is_allocated mesh.now at ≡ true }
    requires whole { IsWhole mesh.now }
    ensures field { IfOk result (λ copy. copy.field ≡ at.field) }
    ensures there { IfOk result (λ copy. IsFieldAt mesh.now at (Some copy)) }
{
    let idle = mesh.idle(at);
    let mut totals = vec![in alloc; 0u64; mesh.layout().interior_len()]?;
    mesh.interior(at, &mut totals);
    Ok(LeafField {
        field: at.field,
        idle,
        totals: Cells::of(totals),
    })
}

/// What is copied of the fields of a leaf.
fn fields_on(alloc: Global, mesh: &MeshState, leaf: u32) -> Result<LeafFields, NoMemory>
    requires leaf { leaf < leaf_count mesh.now }
    requires whole { IsWhole mesh.now }
    ensures { IfOk result (AreFieldsOn mesh.now leaf) }
{
    let _ = mesh.tree();
    let mut fields = Items::new(alloc);
    let mut from = 0;
    while let Some(field) = mesh.next_field(leaf, from) {
        let copy = field_at(alloc, mesh, Place { block: leaf, field })?;
        fields.push(copy)?;
        from = field + 1;
    }
    Ok(fields)
}

/// What is copied of the fields of all leaves, in the order of the leaves.
pub fn fields_of(alloc: Global, mesh: &MeshState) -> Result<Vec<LeafFields>, NoMemory>
    requires { IsWhole mesh.now }
    ensures { IfOk result (λ copies. AreOnLeaves mesh.now (leaf_count mesh.now) copies.items) }
{
    let leaves = mesh.tree().len();
    let mut copies = Vec::with_capacity(alloc, leaves as usize)?;
    for leaf in 0..leaves {
        let fields = fields_on(alloc, mesh, leaf)?;
        copies.push(fields)?;
    }
    Ok(copies)
}
