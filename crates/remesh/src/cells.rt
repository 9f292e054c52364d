//! The cells of a leaf of the next tree.

ghost use Rattle.std.specs.Prelude.{◌≡◌, ◌<◌, ℕ, [], IfOk, OnOk, true, length};
ghost use Rattle.std.specs.List.{slice_index_or};
ghost use Rattle.morton_order.specs.Space.{child_number, parts as parts_of};
ghost use Rattle.block_layout.specs.Layouts.{interior_len, len};
ghost use Rattle.block_regions.specs.Rows.{whole_box};
ghost use Rattle.cell_boxes.specs.Boxes.{StaysOffBox};
ghost use Rattle.restrict_prolong.specs.Boxes.{HasSums};
ghost use Rattle.restrict_prolong.specs.Refined.{factors};
ghost use Rattle.dense_remesh.specs.Parts.{HasChildSums, HasParentShares, IsChildList, half_cells, list_of, part_box};
ghost use Rattle.dense_remesh.specs.declared.origins.Origin.TheVariants.{Children, Leaf, Parent};
ghost use Rattle.cell_block.specs.State.{leaf_count};
ghost use Rattle.cell_block.specs.Rules.{interior_of};
ghost use Rattle.remesh.specs.Sources.{IsNumberOf};
ghost use Rattle.remesh.specs.Leaves.{plain};
ghost use Rattle.remesh.specs.Fields.{AreCarried, CanCarry, comes, old_lists};

use crate::leaf::NewLeaf;
use block_layout::Layout;
use block_regions::{BlockRegion, in_block, whole};
use cell_block::MeshState;
use cell_boxes::{CopyRow, write_box};
use cell_lists::Cells;
use dense_remesh::{Origin, child_count, child_shares, write_child_sums};
use mesh_num::NoMemory;
use sparse_pool::Place;
use std::alloc::Global;

/// Writes a block's own cells, x1 fastest, into its list.
fn write_interior(layout: &Layout, own: &[u64], cells: &mut [u64])
    requires own { length own.now ≡ interior_len layout.now }
    requires cells { length cells.old ≡ len layout.now }
    ensures { interior_of layout.now cells.new ≡ own.now }
{
    let extents = [
        layout.cells[0] as usize,
        layout.cells[1] as usize,
        layout.cells[2] as usize,
    ];
    let low = [
        layout.ghost_layers(0),
        layout.ghost_layers(1),
        layout.ghost_layers(2),
    ];
    let into_box = in_block(layout, &BlockRegion { low, extents });
    write_box(&CopyRow, extents, own, whole(extents), cells, into_box);
}

/// The list of a block with its own cells, x1 fastest, and zeros in its ghosts.
pub(crate) fn with_ghosts(alloc: Global, layout: &Layout, own: &[u64]) -> Result<Cells, NoMemory>
    requires { length own.now ≡ interior_len layout.now }
    ensures size { IfOk result (λ cells. length cells ≡ len layout.now) }
    ensures own { IfOk result (λ cells. interior_of layout.now cells ≡ own.now) }
{
    let mut totals = vec![in alloc; 0u64; layout.len()]?;
    write_interior(layout, own, totals.as_mut_slice());
    Ok(Cells::of(totals))
}

/// The cells of a field on a leaf that stays, with their ghosts.
fn copied(alloc: Global, leaf: &NewLeaf, old: u32, field: u32) -> Result<Cells, NoMemory>
    requires leaf { CanCarry (plain leaf.now) }
    requires origin { leaf.now.origin ≡ Leaf old }
    requires field { field < leaf.now.old.now.fields }
    requires comes { comes (plain leaf.now) field ≡ true }
    ensures { IfOk result (AreCarried (plain leaf.now) field) }
{
    let buffer = leaf.old.buffer(Place { block: old, field }).unwrap();
    Cells::from_slice(alloc, buffer.cells.as_slice())
}

/// The totals of a field on an old leaf, x1 fastest, without ghosts.
fn own_totals(alloc: Global, leaf: &NewLeaf, old: u32, field: u32) -> Result<Vec<u64>, NoMemory>
    requires leaf { CanCarry (plain leaf.now) }
    requires old { old < leaf_count leaf.now.old.now }
    requires field { field < leaf.now.old.now.fields }
    ensures size { IfOk result (λ own. length own.items ≡ interior_len leaf.now.layout.now) }
    ensures own { IfOk result (λ own. own.items ≡ slice_index_or (old_lists (plain leaf.now) field) old []) }
{
    let mut own = vec![in alloc; 0u64; leaf.layout.interior_len()]?;
    let at = Place { block: old, field };
    leaf.old.interior(at, own.as_mut_slice());
    Ok(own)
}

/// The cells of a field on a leaf whose parent was one: the shares of the parent's.
fn shared(alloc: Global, leaf: &NewLeaf, parent: u32, field: u32) -> Result<Cells, NoMemory>
    requires leaf { CanCarry (plain leaf.now) }
    requires origin { leaf.now.origin ≡ Parent parent }
    requires field { field < leaf.now.old.now.fields }
    ensures { IfOk result (AreCarried (plain leaf.now) field) }
{
    let coarse = own_totals(alloc, leaf, parent, field)?;
    let fine = child_shares(alloc, leaf.layout, &leaf.at, coarse.as_slice())?;
    with_ghosts(alloc, leaf.layout, fine.as_slice())
}

/// Writes the cells of a leaf that a child covers by the sums over the child's.
fn write_sums_of(
    alloc: Global,
    leaf: &NewLeaf,
    child: u32,
    number: Option<u32>,
    field: u32,
    into: &mut [u64],
) -> Result<(), NoMemory>
    requires leaf { CanCarry (plain leaf.now) }
    requires child { child < parts_of leaf.now.layout.now.dims }
    requires number { IsNumberOf leaf.now.old.now number }
    requires field { field < leaf.now.old.now.fields }
    requires list { IsChildList leaf.now.layout.now (old_lists (plain leaf.now) field) number }
    requires into { length into.old ≡ interior_len leaf.now.layout.now }
    ensures inside { OnOk result (HasSums (factors leaf.now.layout.now.dims) (half_cells leaf.now.layout.now) (list_of (old_lists (plain leaf.now) field) number) (whole_box leaf.now.layout.now.cells) into.new (part_box leaf.now.layout.now child)) }
    ensures outside { OnOk result (StaysOffBox (half_cells leaf.now.layout.now) (part_box leaf.now.layout.now child) into.old into.new) }
{
    let Some(old) = number else { return Ok(()) };
    let fine = own_totals(alloc, leaf, old, field)?;
    write_child_sums(leaf.layout, child, fine.as_slice(), into);
    Ok(())
}

/// Writes the cells of a leaf by the sums over the cells of its children.
fn write_sums(
    alloc: Global,
    leaf: &NewLeaf,
    numbers: &[Option<u32>; 8],
    field: u32,
    into: &mut [u64],
) -> Result<(), NoMemory>
    requires leaf { CanCarry (plain leaf.now) }
    requires origin { leaf.now.origin ≡ Children numbers.now }
    requires field { field < leaf.now.old.now.fields }
    requires into { length into.old ≡ interior_len leaf.now.layout.now }
    ensures { OnOk result (HasChildSums leaf.now.layout.now (old_lists (plain leaf.now) field) numbers.now (parts_of leaf.now.layout.now.dims) into.new) }
{
    for j in 0..child_count(leaf.layout.dims) {
        write_sums_of(alloc, leaf, j, numbers[j as usize], field, into)?;
    }
    Ok(())
}

/// The cells of a field on a leaf whose children were leaves: the sums over theirs.
fn summed(
    alloc: Global,
    leaf: &NewLeaf,
    numbers: &[Option<u32>; 8],
    field: u32,
) -> Result<Cells, NoMemory>
    requires leaf { CanCarry (plain leaf.now) }
    requires origin { leaf.now.origin ≡ Children numbers.now }
    requires field { field < leaf.now.old.now.fields }
    ensures { IfOk result (AreCarried (plain leaf.now) field) }
{
    let mut coarse = vec![in alloc; 0u64; leaf.layout.interior_len()]?;
    write_sums(alloc, leaf, numbers, field, coarse.as_mut_slice())?;
    with_ghosts(alloc, leaf.layout, coarse.as_slice())
}

/// The cells of a field that comes to a leaf.
pub(crate) fn coming_cells(alloc: Global, leaf: &NewLeaf, field: u32) -> Result<Cells, NoMemory>
    requires leaf { CanCarry (plain leaf.now) }
    requires field { field < leaf.now.old.now.fields }
    requires comes { comes (plain leaf.now) field ≡ true }
    ensures { IfOk result (AreCarried (plain leaf.now) field) }
{
    match &leaf.origin {
        Origin::Leaf(old) => copied(alloc, leaf, *old, field),
        Origin::Parent(old) => shared(alloc, leaf, *old, field),
        Origin::Children(numbers) => summed(alloc, leaf, numbers, field),
    }
}
