//! What passes the faces of each leaf by its own cells and ghosts.

ghost use Rattle.std.specs.Prelude.{◌≡◌, ◌<◌, ◌≤◌, ◌+◌, ◌^◌, ℕ, List, All, IsTrue, Some, length, slice_get};
ghost use Rattle.morton_order.specs.declared.space.Loc.{Loc};
ghost use Rattle.problem_set.specs.SettingsOf.{settings_of};
ghost use Rattle.block_tree.specs.Blocks.{is_inner_of, leaves};
ghost use Rattle.block_layout.specs.Layouts.{len};
ghost use Rattle.block_layout.specs.Faces.{face_count};
ghost use Rattle.block_geometry.specs.Contents.{HasInterior, SeesAround};
ghost use Rattle.upwind_fluxes.specs.declared.donor.Donor.TheVariants.{Below, Above};
ghost use Rattle.upwind_fluxes.specs.Fluxes.{AreFluxes};
ghost use Rattle.upwind_fluxes.specs.Multipliers.{AreOf};
ghost use Rattle.upwind_fluxes.specs.Rates.{AreProper};
ghost use Rattle.slope_kernel.specs.Slopes.{AreSlopeFluxes};
ghost use Rattle.mesh_rules.specs.Fields.{moves_at};
ghost use Rattle.dense_mesh.specs.Ghosts.{SeeMesh, list_at};
ghost use Rattle.dense_stage.specs.Blocks.{AreBelow, HasOwn, HaveOwn, IsSoundMesh, OnLeaves, block_in, field_on, mesh_in};
ghost use Rattle.dense_stage.specs.Faces.{AreFaceLists};
ghost use Rattle.leaf_stages.specs.Rates.{AreFluxesBy, AreLevelPortions, FitOrder};

use crate::face_lists::FaceLists;
use block_layout::Layout;
use block_tree::Tree;
use cell_lists::Cells;
use leaf_stages::{LevelPortions, closed_sides, level_portions, portions_at};
use problem_set::Problem;
use slope_kernel::slope_fluxes_by;
use upwind_fluxes::fluxes_by;

/// Writes what passes every face of a block, by the first or the second order.
fn block_fluxes(
    layout: &Layout,
    order: u32,
    portions: &LevelPortions,
    closed: &[bool; 6],
    cells: &[u64],
    right: &mut [u64],
    left: &mut [u64],
)
    requires cell_list { length cells.now ≡ len layout.now }
    requires right_list { length right.old ≡ face_count layout.now }
    requires left_list { length left.old ≡ face_count layout.now }
    requires proper { AreProper portions.now.rates }
    requires second { FitOrder order portions.now.rates }
    requires multipliers { AreOf portions.now.rates portions.now.multipliers }
    requires small { All (λ t. t < 2 ^ 62) cells.now }
    ensures right { AreFluxesBy order layout.now Below portions.now.rates closed.now cells.now right.new }
    ensures left { AreFluxesBy order layout.now Above portions.now.rates closed.now cells.now left.new }
    ensures right_small { AreBelow (2 ^ 62) layout.now right.new }
    ensures left_small { AreBelow (2 ^ 62) layout.now left.new }
{
    let rates = &portions.rates;
    let multipliers = &portions.multipliers;
    if order == 2 {
        slope_fluxes_by(layout, rates, multipliers, closed, cells, right, left);
    } else {
        fluxes_by(layout, rates, multipliers, closed, cells, right, left);
    }
}

/// Writes what passes the faces of a leaf by its own cells and ghosts.
pub(crate) fn leaf_fluxes(
    problem: &Problem,
    tree: &Tree,
    layout: &Layout,
    field: u32,
    portions: &LevelPortions,
    leaf: u32,
    cells: &Cells,
    right: &mut Cells,
    left: &mut Cells,
)
    ghost lists: { List (List (List ℕ)) }
    requires mesh { IsSoundMesh tree.now layout.now (field_on problem.now lists field) }
    requires shape { tree.now.shape ≡ problem.now.shape }
    requires field { field < length problem.now.moves }
    requires portions { AreLevelPortions (settings_of problem.now) field portions.now }
    requires level { (l : Loc) → slice_get (leaves tree.now) leaf ≡ Some l → portions.now.level ≡ l.level }
    requires leaf { leaf < length (leaves tree.now) }
    requires cell_list { length cells.now ≡ len layout.now }
    requires right_list { length right.old ≡ face_count layout.now }
    requires left_list { length left.old ≡ face_count layout.now }
    requires small { All (λ t. t < 2 ^ 62) cells.now }
    requires own { (l : Loc) → slice_get (leaves tree.now) leaf ≡ Some l
        → HasInterior (block_in tree.now layout.now (field_on problem.now lists field) l) cells.now }
    requires around { (l : Loc) → slice_get (leaves tree.now) leaf ≡ Some l
        → SeesAround (block_in tree.now layout.now (field_on problem.now lists field) l) cells.now }
    ensures own { (l : Loc) → slice_get (leaves tree.now) leaf ≡ Some l
        → HasOwn (block_in tree.now layout.now (field_on problem.now lists field) l) right.new left.new }
    ensures right_size { length right.new ≡ length right.old }
    ensures left_size { length left.new ≡ length left.old }
{
    let closed = closed_sides(problem, tree, leaf);
    let order = problem.moves.as_slice()[field as usize].order;
    block_fluxes(
        layout,
        order,
        portions,
        &closed,
        cells.as_slice(),
        right.as_mut_slice(),
        left.as_mut_slice(),
    );
}

/// Writes what passes the faces of each leaf by its own cells and ghosts.
pub(crate) fn own_fluxes(
    problem: &Problem,
    tree: &Tree,
    layout: &Layout,
    field: u32,
    ghosts: &Vec<Cells>,
    faces: &mut FaceLists,
)
    ghost lists: { List (List (List ℕ)) }
    requires mesh { IsSoundMesh tree.now layout.now (field_on problem.now lists field) }
    requires shape { tree.now.shape ≡ problem.now.shape }
    requires levels { OnLeaves tree.now (λ _ l. l.level < problem.now.levels) }
    requires field { field < length problem.now.moves }
    requires seen { SeeMesh (settings_of problem.now)
        (mesh_in tree.now (field_on problem.now lists field)) layout.now field ghosts.now.items }
    requires faces { AreFaceLists layout.now (length (leaves tree.now)) faces.old }
    ensures faces { AreFaceLists layout.now (length (leaves tree.now)) faces.new }
    ensures own { HaveOwn tree.now layout.now (field_on problem.now lists field) faces.new }
{
    let mut portions = level_portions(problem, field, 0);
    for leaf in 0..tree.len() {
        let at = leaf as usize;
        portions = portions_at(problem, field, tree.leaf_at(leaf).level, portions);
        leaf_fluxes(
            problem,
            tree,
            layout,
            field,
            &portions,
            leaf,
            &ghosts[at],
            &mut faces.right[at],
            &mut faces.left[at],
        );
    }
}
