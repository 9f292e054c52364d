//! A stage leaf by leaf, where no finer leaf stands behind any side: then what the cells and ghosts of a leaf say passes
//! its faces, and the lists of one block serve all leaves.

ghost use Rattle.std.specs.Prelude.{◌≡◌, ◌<◌, ◌≤◌, ◌^◌, true, All, IfOk, Some, length, slice_get};
ghost use Rattle.morton_order.specs.declared.space.Loc.{Loc};
ghost use Rattle.problem_set.specs.SettingsOf.{settings_of};
ghost use Rattle.block_tree.specs.Blocks.{leaves};
ghost use Rattle.mesh_rules.specs.Stage.{inflow_of, leaf_inflow, leaf_outflow, outflow_of, staged};
ghost use Rattle.block_layout.specs.Layouts.{len};
ghost use Rattle.block_layout.specs.Faces.{face_count};
ghost use Rattle.block_geometry.specs.Contents.{HasInterior, HasPairs, SeesAround};
ghost use Rattle.dense_mesh.specs.Ghosts.{AreGhostLists, SeeMesh};
ghost use Rattle.dense_mesh.specs.Meshes.{field_list};
ghost use Rattle.dense_stage.specs.Blocks.{FieldMesh, IsSoundMesh, NoneFiner, NoneFinerAt, OnLeaves, StaysSmall, block_in, field_on, mesh_in, staged_list};
ghost use Rattle.dense_stage.specs.Faces.{AreFaceLists};
ghost use Rattle.dense_stage.specs.Own.{own_cells};
ghost use Rattle.leaf_stages.specs.Rates.{AreLevelPortions};

use crate::face_lists::FaceLists;
use crate::own_fluxes::leaf_fluxes;
use crate::stage::Advanced;
use crate::staging::{own_of, update_leaf};
use block_layout::Layout;
use block_tree::{Behind, Tree};
use cell_lists::{Cells, NoMemory};
use dense_mesh::FieldTotals;
use leaf_stages::{LeafFlows, LevelPortions, leaf_flows, level_portions, portions_at};
use morton_order::Side;
use problem_set::Problem;
use std::alloc::Global;

/// Whether no finer leaf stands behind a side of a leaf.
fn is_plain_side(tree: &Tree, leaf: u32, side: Side) -> bool
    requires leaf { leaf < length (leaves tree.now) }
    requires axis { side.axis < tree.now.shape.dims }
    ensures { result ≡ true → (l : Loc) → slice_get (leaves tree.now) leaf ≡ Some l
        → NoneFinerAt tree.now l side.axis side.high }
{
    match tree.behind(leaf, side) {
        Behind::Fine(_) => false,
        _ => true,
    }
}

/// Whether no finer leaf stands behind any side of a leaf.
fn is_plain_leaf(tree: &Tree, dims: u32, leaf: u32) -> bool
    requires leaf { leaf < length (leaves tree.now) }
    requires dims { dims ≤ tree.now.shape.dims }
    ensures { result ≡ true → (l : Loc) → slice_get (leaves tree.now) leaf ≡ Some l → NoneFiner dims tree.now l }
{
    for axis in 0..dims {
        if !is_plain_side(tree, leaf, Side { axis, high: false }) {
            return false;
        }
        if !is_plain_side(tree, leaf, Side { axis, high: true }) {
            return false;
        }
    }
    true
}

/// Whether no finer leaf stands behind any side of any leaf, so that no flux is corrected.
pub(crate) fn is_plain(tree: &Tree, dims: u32) -> bool
    requires dims { dims ≤ tree.now.shape.dims }
    ensures { result ≡ true → OnLeaves tree.now (λ leaf l. NoneFiner dims tree.now l) }
{
    for leaf in 0..tree.len() {
        if !is_plain_leaf(tree, dims, leaf) {
            return false;
        }
    }
    true
}

/// Writes what passes the faces of a leaf behind whose sides no finer leaf stands.
fn leaf_pairs(
    problem: &Problem,
    tree: &Tree,
    layout: &Layout,
    field: u32,
    portions: &LevelPortions,
    leaf: u32,
    cells: &Cells,
    right: &mut Cells,
    left: &mut Cells,
)
    ghost x: { FieldMesh }
    requires is { x ≡ field_on problem.now x.lists field }
    requires mesh { IsSoundMesh tree.now layout.now x }
    requires shape { tree.now.shape ≡ problem.now.shape }
    requires field { field < length problem.now.moves }
    requires portions { AreLevelPortions (settings_of problem.now) field portions.now }
    requires level { (l : Loc) → slice_get (leaves tree.now) leaf ≡ Some l → portions.now.level ≡ l.level }
    requires leaf { leaf < length (leaves tree.now) }
    requires cell_list { length cells.now ≡ len layout.now }
    requires right_list { length right.old ≡ face_count layout.now }
    requires left_list { length left.old ≡ face_count layout.now }
    requires small { All (λ t. t < 2 ^ 62) cells.now }
    requires own { (l : Loc) → slice_get (leaves tree.now) leaf ≡ Some l
        → HasInterior (block_in tree.now layout.now x l) cells.now }
    requires around { (l : Loc) → slice_get (leaves tree.now) leaf ≡ Some l
        → SeesAround (block_in tree.now layout.now x l) cells.now }
    requires plain { OnLeaves tree.now (λ leaf l. NoneFiner layout.now.dims tree.now l) }
    ensures pairs { (l : Loc) → slice_get (leaves tree.now) leaf ≡ Some l
        → HasPairs (block_in tree.now layout.now x l) right.new left.new }
    ensures right_size { length right.new ≡ face_count layout.now }
    ensures left_size { length left.new ≡ face_count layout.now }
{
    leaf_fluxes(
        problem, tree, layout, field, portions, leaf, cells, right, left,
    );
}

/// Makes of the cells of a leaf those after the stage, and answers what flows in and out of it through the faces of the
/// domain.
fn stage_leaf(
    tree: &Tree,
    layout: &Layout,
    leaf: u32,
    cells: &mut Cells,
    right: &Cells,
    left: &Cells,
) -> LeafFlows
    ghost x: { FieldMesh }
    requires mesh { IsSoundMesh tree.now layout.now x }
    requires leaf { leaf < length (leaves tree.now) }
    requires cell_list { length cells.old ≡ len layout.now }
    requires right_list { length right.now ≡ face_count layout.now }
    requires left_list { length left.now ≡ face_count layout.now }
    requires totals { All (λ t. t < 2 ^ 62) cells.old }
    requires own { (l : Loc) → slice_get (leaves tree.now) leaf ≡ Some l
        → HasInterior (block_in tree.now layout.now x l) cells.old }
    requires pairs { (l : Loc) → slice_get (leaves tree.now) leaf ≡ Some l
        → HasPairs (block_in tree.now layout.now x l) right.now left.now }
    requires small { OnLeaves tree.now (λ leaf l. StaysSmall (block_in tree.now layout.now x l)) }
    ensures inflow { (l : Loc) → slice_get (leaves tree.now) leaf ≡ Some l
        → result.inflow ≡ leaf_inflow x.settings (mesh_in tree.now x) x.field l }
    ensures outflow { (l : Loc) → slice_get (leaves tree.now) leaf ≡ Some l
        → result.outflow ≡ leaf_outflow x.settings (mesh_in tree.now x) x.field l }
    ensures most_in { result.inflow ≤ 2 ^ 87 }
    ensures most_out { result.outflow ≤ 2 ^ 87 }
    ensures staged { (l : Loc) → slice_get (leaves tree.now) leaf ≡ Some l
        → own_cells layout.now cells.new ≡ staged_list tree.now x l }
    ensures totals { All (λ t. t < 2 ^ 62) cells.new }
    ensures size { length cells.new ≡ length cells.old }
{
    let flows = leaf_flows(tree, layout, leaf, right, left);
    update_leaf(layout, cells, right, left);
    flows
}

/// Advances a field by a stage, leaf by leaf. What passes the faces of each is written over what passed those of the one
/// before, in the lists of the first leaf.
pub(crate) fn stage_each(
    alloc: Global,
    problem: &Problem,
    tree: &Tree,
    layout: &Layout,
    field: u32,
    ghosts: &mut Vec<Cells>,
    faces: &mut FaceLists,
) -> Result<Advanced, NoMemory>
    ghost x: { FieldMesh }
    requires is { x ≡ field_on problem.now x.lists field }
    requires mesh { IsSoundMesh tree.now layout.now x }
    requires shape { tree.now.shape ≡ problem.now.shape }
    requires levels { OnLeaves tree.now (λ leaf l. l.level < problem.now.levels) }
    requires field { field < length problem.now.moves }
    requires seen { SeeMesh x.settings (mesh_in tree.now x) layout.now x.field ghosts.old.items }
    requires faces { AreFaceLists layout.now (length (leaves tree.now)) faces.old }
    requires small { OnLeaves tree.now (λ leaf l. StaysSmall (block_in tree.now layout.now x l)) }
    requires plain { OnLeaves tree.now (λ leaf l. NoneFiner layout.now.dims tree.now l) }
    ensures staged { IfOk result (λ advanced. advanced.totals
        ≡ field_list (mesh_in tree.now x) (staged x.settings (mesh_in tree.now x) x.field)) }
    ensures inflow { IfOk result (λ advanced. advanced.inflow ≡ inflow_of x.settings (mesh_in tree.now x) x.field) }
    ensures outflow { IfOk result (λ advanced. advanced.outflow ≡ outflow_of x.settings (mesh_in tree.now x) x.field) }
    ensures ghosts { AreGhostLists layout.now (length (leaves tree.now)) ghosts.new.items }
    ensures faces { AreFaceLists layout.now (length (leaves tree.now)) faces.new }
{
    let mut totals = Vec::with_capacity(alloc, tree.len() as usize)?;
    let mut inflow = 0u128;
    let mut outflow = 0u128;
    let mut portions = level_portions(problem, field, 0);
    for leaf in 0..tree.len() {
        let at = leaf as usize;
        portions = portions_at(problem, field, tree.leaf_at(leaf).level, portions);
        leaf_pairs(
            problem,
            tree,
            layout,
            field,
            &portions,
            leaf,
            &ghosts[at],
            &mut faces.right[0],
            &mut faces.left[0],
        );
        let flows = stage_leaf(
            tree,
            layout,
            leaf,
            &mut ghosts[at],
            &faces.right[0],
            &faces.left[0],
        );
        inflow += flows.inflow;
        outflow += flows.outflow;
        totals.push(own_of(alloc, layout, ghosts[at].as_slice())?)?;
    }
    Ok(Advanced {
        totals: FieldTotals::from_vec(totals),
        inflow,
        outflow,
    })
}
