//! The update of each leaf.

ghost use Rattle.std.specs.Prelude.{◌≡◌, ◌<◌, ◌≤◌, ◌^◌, IfOk, All, Some, length, slice_get, slice_index};
ghost use Rattle.morton_order.specs.declared.space.Loc.{Loc};
ghost use Rattle.block_tree.specs.Blocks.{leaves};
ghost use Rattle.mesh_rules.specs.Stage.{staged};
ghost use Rattle.mesh_rules.specs.Sums.{table};
ghost use Rattle.block_layout.specs.Faces.{face_count};
ghost use Rattle.block_layout.specs.Indices.{count_of, index_of};
ghost use Rattle.block_layout.specs.Layouts.{len};
ghost use Rattle.block_geometry.specs.Blocks.{own_place};
ghost use Rattle.block_regions.specs.Boxes.{AreFew};
ghost use Rattle.transport_kernel.specs.Update.{CanPass, GhostsStay, HasPassed, listed};
ghost use Rattle.dense_mesh.specs.Ghosts.{AreGhostLists, HaveInteriors};
ghost use Rattle.dense_mesh.specs.Meshes.{field_list};
ghost use Rattle.dense_stage.specs.Blocks.{FieldMesh, HavePairs, IsSoundMesh, OnLeaves, StaysSmall, block_in, mesh_in};
ghost use Rattle.dense_stage.specs.Faces.{AreFaceLists};
ghost use Rattle.dense_stage.specs.Own.{extents_of, interior_box, own_cells};

use crate::face_lists::FaceLists;
use block_layout::Layout;
use block_regions::{cell_count, whole};
use block_tree::Tree;
use cell_boxes::{BoxIn, CopyRow, write_box};
use cell_lists::{Cells, NoMemory};
use dense_mesh::FieldTotals;
use std::alloc::Global;
use transport_kernel::update;

/// The cells of a block along each axis.
fn extents_of(layout: &Layout) -> [usize; 3]
    ensures value { result ≡ extents_of layout.now }
    ensures few { AreFew result }
{
    [
        layout.cells[0] as usize,
        layout.cells[1] as usize,
        layout.cells[2] as usize,
    ]
}

/// The interior of a block in its list.
fn interior_box(layout: &Layout) -> BoxIn
    ensures { result ≡ interior_box layout.now }
{
    BoxIn {
        first: 0,
        widths: [layout.width(0), layout.width(1), layout.width(2)],
        low: [
            layout.ghost_layers(0),
            layout.ghost_layers(1),
            layout.ghost_layers(2),
        ],
    }
}

/// Writes the interior cells of a block, without its ghosts.
fn write_own(layout: &Layout, cells: &[u64], own: &mut [u64])
    requires cells { length cells.now ≡ len layout.now }
    requires own { length own.old ≡ count_of layout.now.cells }
    ensures { own.new ≡ own_cells layout.now cells.now }
{
    let extents = extents_of(layout);
    let from_box = interior_box(layout);
    let into_box = whole(extents);
    write_box(&CopyRow, extents, cells, from_box, own, into_box);
}

/// The interior cells of a block, without its ghosts.
pub(crate) fn own_of(alloc: Global, layout: &Layout, cells: &[u64]) -> Result<Cells, NoMemory>
    requires { length cells.now ≡ len layout.now }
    ensures { IfOk result (λ own. own ≡ own_cells layout.now cells.now) }
{
    let extents = extents_of(layout);
    let mut own = vec![in alloc; 0u64; cell_count(&extents)]?;
    write_own(layout, cells, own.as_mut_slice());
    Ok(Cells::of(own))
}

/// Makes of a block's cells those after the stage.
pub(crate) fn update_leaf(layout: &Layout, cells: &mut Cells, right: &Cells, left: &Cells)
    requires cell_list { length cells.old ≡ len layout.now }
    requires right_list { length right.now ≡ face_count layout.now }
    requires left_list { length left.now ≡ face_count layout.now }
    requires passes { CanPass layout.now (listed layout.now right.now) (listed layout.now left.now) cells.old }
    ensures passed { HasPassed layout.now (listed layout.now right.now)
        (listed layout.now left.now) cells.old cells.new }
    ensures ghosts { GhostsStay layout.now cells.old cells.new }
    ensures size { length cells.new ≡ length cells.old }
{
    update(
        layout,
        cells.as_mut_slice(),
        right.as_slice(),
        left.as_slice(),
    );
}

/// Makes of the cells of each leaf those after the stage, and a list of them without ghosts.
pub(crate) fn stage_leaves(
    alloc: Global,
    tree: &Tree,
    layout: &Layout,
    ghosts: &mut Vec<Cells>,
    faces: &FaceLists,
) -> Result<FieldTotals, NoMemory>
    ghost x: { FieldMesh }
    requires mesh { IsSoundMesh tree.now layout.now x }
    requires ghosts { AreGhostLists layout.now (length (leaves tree.now)) ghosts.old.items }
    requires own { HaveInteriors x.settings (mesh_in tree.now x) layout.now x.field ghosts.old.items }
    requires faces { AreFaceLists layout.now (length (leaves tree.now)) faces.now }
    requires pairs { HavePairs tree.now layout.now x faces.now }
    requires small { OnLeaves tree.now (λ leaf l. StaysSmall (block_in tree.now layout.now x l)) }
    ensures ghosts { AreGhostLists layout.now (length (leaves tree.now)) ghosts.new.items }
    ensures totals { IfOk result (λ totals. totals
        ≡ field_list (mesh_in tree.now x) (staged x.settings (mesh_in tree.now x) x.field)) }
{
    let mut totals = Vec::with_capacity(alloc, tree.len() as usize)?;
    for leaf in 0..tree.len() {
        let at = leaf as usize;
        update_leaf(layout, &mut ghosts[at], &faces.right[at], &faces.left[at]);
        totals.push(own_of(alloc, layout, ghosts[at].as_slice())?)?;
    }
    Ok(FieldTotals::from_vec(totals))
}
