//! Listing the allocated places of a block.

ghost use Rattle.std.specs.Prelude.{◌≡◌, ◌-◌, ◌/◌, ◌++◌, [], ◌∷◌, ◌<◌, ◌≤◌, ◌&&◌, cond, is_some, length, OnOk};
ghost use Rattle.alloc_epochs.specs.Pages.{key_in, pages_for};
ghost use Rattle.alloc_epochs.specs.Rows.{row_places};
ghost use Rattle.alloc_epochs.specs.Shelf.{place_on, takes};

use crate::page::PAGE_SIZE;
use crate::row::Row;
use mesh_num::NoMemory;
use package_fields::{Flag, Registry};
use sparse_pool::{PackKind, Place};

/// Whether tasks of a kind take a field.
fn is_taken(kind: PackKind, fields: &Registry, field: u32) -> bool
    requires { field < length fields.now.fields }
    ensures { result ≡ takes fields.now.fields kind field }
{
    match kind {
        PackKind::All => true,
        PackKind::Ghost => fields.has(field, Flag::FillGhost),
        PackKind::Flux => fields.has(field, Flag::WithFluxes),
    }
}

/// Lists a field of a block where it is allocated and tasks of the kind take it.
fn list_field(
    row: &Row,
    at: Place,
    kind: PackKind,
    fields: &Registry,
    places: &mut Vec<Place>,
) -> Result<(), NoMemory>
    requires { at.field < length fields.now.fields }
    ensures { OnOk result (places.new.items
        ≡ places.old.items ++ cond (is_some (key_in row.now at.field) && takes fields.now.fields kind at.field)
        (at ∷ []) []) }
{
    if row.get(at.field as usize).is_some() && is_taken(kind, fields, at.field) {
        places.push(at)?;
    }
    Ok(())
}

/// Lists the allocated places of a block whose fields tasks of the kind take, by field. A page that
/// has no entry costs one step.
pub fn list_row(
    row: &Row,
    block: u32,
    kind: PackKind,
    fields: &Registry,
    places: &mut Vec<Place>,
) -> Result<(), NoMemory>
    requires few { length fields.now.fields ≤ 256 }
    requires pages { length row.now ≡ pages_for (length fields.now.fields) }
    ensures { OnOk result (places.new.items
        ≡ places.old.items ++ row_places row.now (takes fields.now.fields kind) block (length fields.now.fields)) }
{
    let count = fields.count();
    let mut field = 0;
    while field < count {
        if row.has_page(field as usize) {
            list_field(row, Place { block, field }, kind, fields, places)?;
            field += 1;
        } else {
            field = next_page(field).min(count);
        }
    }
    Ok(())
}

/// The first field of the page after that of a field.
pub(crate) fn next_page(field: u32) -> u32
    requires { field < 256 }
    ensures later { field < result }
    ensures near { (result - 1) / 32 ≡ field / 32 }
{
    (field / PAGE_SIZE as u32 + 1) * PAGE_SIZE as u32
}
