//! The letters of a stage, side by side and leaf by leaf.

ghost use Rattle.std.specs.Prelude.{◌≡◌, ◌+◌, ◌-◌, ◌/◌, ◌<◌, ◌≤◌, length};
ghost use Rattle.block_tree.specs.Blocks.{leaves};
ghost use Rattle.mesh_rules.specs.Due.{coarser_in};
ghost use Rattle.mesh_rules.specs.Regions.{leaves_in};
ghost use Rattle.due_counts.specs.Counts.{AddsAll, CanAdd, CanTake};
ghost use Rattle.due_counts.specs.Sides.{all_lists, all_of, coarser_of, divided, leaf_lists, side_lists};

use crate::counts::Counts;
use block_tree::{Behind, FineLeaves, Tree};
use morton_order::Side;

/// Counts a letter to each of some finer leaves.
fn add_all(size: u32, leaves: &FineLeaves, counts: &mut Counts)
    requires size { 1 ≤ size }
    requires can { CanAdd (divided size leaves.now) counts.old }
    ensures { AddsAll (divided size leaves.now) counts.old counts.new }
{
    for i in 0..leaves.len() {
        let leaf = leaves.get(i).unwrap();
        counts.add(leaf / size);
    }
}

/// Counts a letter to each leaf behind a side, and one to a coarser leaf there.
fn count_behind(size: u32, behind: &Behind, ghosts: &mut Counts, fluxes: &mut Counts)
    requires size { 1 ≤ size }
    requires ghosts { CanAdd (divided size (all_of behind.now)) ghosts.old }
    requires fluxes { CanAdd (divided size (coarser_of behind.now)) fluxes.old }
    ensures ghosts { AddsAll (divided size (all_of behind.now)) ghosts.old ghosts.new }
    ensures fluxes { AddsAll (divided size (coarser_of behind.now)) fluxes.old fluxes.new }
{
    match behind {
        Behind::Outside => {}
        Behind::Same(leaf) => ghosts.add(*leaf / size),
        Behind::Coarse(leaf) => {
            ghosts.add(*leaf / size);
            fluxes.add(*leaf / size);
        }
        Behind::Fine(leaves) => add_all(size, leaves, ghosts),
    }
}

/// Counts the letters of a leaf across a side.
fn count_side(
    tree: &Tree,
    size: u32,
    leaf: u32,
    side: Side,
    ghosts: &mut Counts,
    fluxes: &mut Counts,
)
    requires size { 1 ≤ size }
    requires leaf { leaf < length (leaves tree.now) }
    requires axis { side.axis < tree.now.shape.dims }
    requires ghosts { CanTake ((length (leaves tree.now) + size - 1) / size) 8 ghosts.old }
    requires fluxes { CanTake ((length (leaves tree.now) + size - 1) / size) 8 fluxes.old }
    ensures ghosts { AddsAll (side_lists tree.now size leaves_in leaf side.axis side.high) ghosts.old ghosts.new }
    ensures fluxes { AddsAll (side_lists tree.now size coarser_in leaf side.axis side.high) fluxes.old fluxes.new }
    ensures few { length (side_lists tree.now size leaves_in leaf side.axis side.high) ≤ 8 }
    ensures fewer { length (side_lists tree.now size coarser_in leaf side.axis side.high) ≤ 8 }
{
    let _ = tree.len();
    let behind = tree.behind(leaf, side);
    count_behind(size, &behind, ghosts, fluxes);
}

/// Counts the letters of a leaf.
fn count_leaf(tree: &Tree, size: u32, leaf: u32, ghosts: &mut Counts, fluxes: &mut Counts)
    requires size { 1 ≤ size }
    requires leaf { leaf < length (leaves tree.now) }
    requires ghosts { CanTake ((length (leaves tree.now) + size - 1) / size) 48 ghosts.old }
    requires fluxes { CanTake ((length (leaves tree.now) + size - 1) / size) 48 fluxes.old }
    ensures ghosts { AddsAll (leaf_lists tree.now size leaves_in leaf) ghosts.old ghosts.new }
    ensures fluxes { AddsAll (leaf_lists tree.now size coarser_in leaf) fluxes.old fluxes.new }
    ensures few { length (leaf_lists tree.now size leaves_in leaf) ≤ 48 }
    ensures fewer { length (leaf_lists tree.now size coarser_in leaf) ≤ 48 }
{
    let _ = tree.len();
    for axis in 0..tree.shape().dims {
        let low = Side { axis, high: false };
        count_side(tree, size, leaf, low, ghosts, fluxes);
        let high = Side { axis, high: true };
        count_side(tree, size, leaf, high, ghosts, fluxes);
    }
}

/// Counts the letters of all leaves.
pub(crate) fn count_all(tree: &Tree, size: u32, ghosts: &mut Counts, fluxes: &mut Counts)
    requires size { 1 ≤ size }
    requires ghosts { CanTake ((length (leaves tree.now) + size - 1) / size) 3145728 ghosts.old }
    requires fluxes { CanTake ((length (leaves tree.now) + size - 1) / size) 3145728 fluxes.old }
    ensures ghosts { AddsAll (all_lists tree.now size leaves_in) ghosts.old ghosts.new }
    ensures fluxes { AddsAll (all_lists tree.now size coarser_in) fluxes.old fluxes.new }
{
    for leaf in 0..tree.len() {
        count_leaf(tree, size, leaf, ghosts, fluxes);
    }
}
