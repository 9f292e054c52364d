//! The ghosts of all leaves.

ghost use Rattle.std.specs.Prelude.{◌≡◌, ◌<◌, IfOk, OnOk, length, map};
ghost use Rattle.problem_set.specs.SettingsOf.{settings_of};
ghost use Rattle.block_tree.specs.Blocks.{leaves};
ghost use Rattle.mesh_rules.specs.Mask.{exchange_calls};
ghost use Rattle.dense_mesh.specs.Meshes.{IsMeshIn, mesh_of};
ghost use Rattle.dense_mesh.specs.Ghosts.{AreGhostLists, SeeMesh};
ghost use Rattle.dense_exchange.specs.FieldMeshes.{CanExchange, HoldOwn, leaf_count};
ghost use Rattle.dense_exchange.specs.Leaves.{AreFilled, IsLeafFilled, calls_of, comes_to_leaf};

use crate::field_mesh::FieldMesh;
use crate::sides::fill_next;
use crate::writes::copy_own;
use block_layout::Layout;
use block_tree::Tree;
use cell_lists::{Cells, NoMemory};
use dense_mesh::FieldTotals;
use morton_order::Side;
use package_fields::{Flag, Items};
use problem_set::Problem;
use std::alloc::Global;

/// Copies the own cells of each leaf into its list.
fn copy_all(on: &FieldMesh, ghosts: &mut Vec<Cells>)
    requires on { CanExchange on.now }
    requires ghosts { AreGhostLists on.now.layout.now (leaf_count on.now) ghosts.old.items }
    ensures { HoldOwn on.now ghosts.new.items }
{
    let totals = on.lists[on.field as usize].as_slice();
    for leaf in 0..ghosts.len() {
        copy_own(on.layout, totals[leaf].as_slice(), &mut ghosts[leaf]);
    }
}

/// Fills the ghosts of a leaf beyond all its sides, and answers whether something above the threshold comes across one
/// of them.
fn fill_leaf(
    alloc: Global,
    on: &FieldMesh,
    to: u32,
    ghosts: &mut Vec<Cells>,
) -> Result<bool, NoMemory>
    requires on { CanExchange on.now }
    requires to { to < leaf_count on.now }
    requires ghosts { HoldOwn on.now ghosts.old.items }
    ensures filled { OnOk result (IsLeafFilled on.now to ghosts.old.items ghosts.new.items) }
    ensures above { IfOk result (λ above. above ≡ comes_to_leaf on.now to) }
{
    let mut above = false;
    for axis in 0..on.layout.dims {
        let low = fill_next(alloc, on, Side { axis, high: false }, to, above, ghosts)?;
        above = fill_next(alloc, on, Side { axis, high: true }, to, low, ghosts)?;
    }
    Ok(above)
}

/// Fills the ghosts of all leaves, and answers for each whether something above the threshold comes to it.
fn fill_all(alloc: Global, on: &FieldMesh, ghosts: &mut Vec<Cells>) -> Result<Items<bool>, NoMemory>
    requires on { CanExchange on.now }
    requires ghosts { HoldOwn on.now ghosts.old.items }
    ensures filled { OnOk result (AreFilled on.now ghosts.new.items) }
    ensures calls { IfOk result (λ calls. calls ≡ calls_of on.now) }
{
    let has_ghosts = on.problem.fields.has(on.field, Flag::FillGhost);
    let mut calls = Items::new(alloc);
    for leaf in 0..on.tree.len() {
        let above = fill_leaf(alloc, on, leaf, ghosts)?;
        calls.push(has_ghosts & above)?;
    }
    Ok(calls)
}

/// Fills a list with ghosts for each leaf with a field of a mesh: the leaf's own cells, and beyond each of its sides
/// what the mesh shows there in both layers. Answers for each leaf whether the exchange calls for the field there:
/// whether the field has ghost zones, and a total above the threshold comes across a side.
///
/// `lists` has the totals by field and leaf, in blocks of the layout. The ghosts at the corners stay as they are.
pub fn exchange(
    alloc: Global,
    problem: &Problem,
    tree: &Tree,
    layout: &Layout,
    lists: &[FieldTotals],
    field: u32,
    ghosts: &mut Vec<Cells>,
) -> Result<Items<bool>, NoMemory>
    requires mesh { IsMeshIn (settings_of problem.now) tree.now layout.now lists.now }
    requires field { field < length problem.now.moves }
    requires ghosts { AreGhostLists layout.now (length (leaves tree.now)) ghosts.old.items }
    ensures sees { OnOk result (SeeMesh (settings_of problem.now) (mesh_of tree.now problem.now.cells lists.now)
        layout.now field ghosts.new.items) }
    ensures calls { IfOk result (λ calls. calls ≡ map
        (exchange_calls (settings_of problem.now) (mesh_of tree.now problem.now.cells lists.now) field) (leaves tree.now)) }
{
    let on = FieldMesh {
        problem,
        tree,
        layout,
        lists,
        field,
    };
    copy_all(&on, ghosts);
    fill_all(alloc, &on, ghosts)
}
