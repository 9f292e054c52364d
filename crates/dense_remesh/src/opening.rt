//! The totals on the opening tree.

ghost use Rattle.std.specs.Prelude.{◌≡◌, ◌≤◌, ◌<◌, ◌^◌, IfOk, map};
ghost use Rattle.block_tree.specs.Blocks.{leaves, tree_with};
ghost use Rattle.problem_set.specs.SettingsOf.{settings_of};
ghost use Rattle.mesh_rules.specs.Fields.{field_count};
ghost use Rattle.mesh_rules.specs.Opening.{opening_mesh, opening_tree};
ghost use Rattle.dense_mesh.specs.Meshes.{mesh_of};
ghost use Rattle.dense_remesh.specs.Lists.{HaveLeafLists};
ghost use Rattle.dense_remesh.specs.StartBoxes.{MakeSame, amounts, opening_list};

use crate::opening_cells::{cell_at, first_cell, last_cell, root_of, share_of_root};
use crate::start_boxes::{boxes_near, boxes_of};
use block_layout::Layout;
use block_tree::Tree;
use cell_lists::Cells;
use dense_mesh::FieldTotals;
use mesh_num::NoMemory;
use morton_order::Loc;
use problem_set::{Problem, StartBox};
use std::alloc::Global;

/// The totals that boxes put into the cells of a block.
fn shares(
    alloc: Global,
    layout: &Layout,
    boxes: &[StartBox],
    block: &Loc,
) -> Result<Cells, NoMemory>
    requires { amounts boxes.now < 2 ^ 62 }
    ensures { IfOk result (λ list. list ≡ opening_list layout.now.dims layout.now.cells boxes.now block.now) }
{
    let mut totals = Vec::with_capacity(alloc, layout.interior_len())?;
    for place in 0..layout.interior_len() {
        let cell = cell_at(layout, block, place);
        totals.push(share_of_root(boxes, layout.dims, block.level, &cell))?;
    }
    Ok(Cells::of(totals))
}

/// The boxes that meet a block.
pub fn boxes_in(
    alloc: Global,
    layout: &Layout,
    boxes: &[StartBox],
    block: &Loc,
) -> Result<Vec<StartBox>, NoMemory>
    ensures list { IfOk result (λ near. MakeSame layout.now.dims layout.now.cells block.now near.items boxes.now) }
    ensures amounts { IfOk result (λ near. amounts near.items ≤ amounts boxes.now) }
{
    let low = root_of(layout.dims, block.level, &first_cell(layout, block));
    let high = root_of(layout.dims, block.level, &last_cell(layout, block));
    boxes_near(alloc, boxes, &low, &high)
}

/// The totals of a block at the start. Its cells are gone over where a box meets it.
pub fn opening_block(
    alloc: Global,
    layout: &Layout,
    boxes: &[StartBox],
    block: &Loc,
) -> Result<Cells, NoMemory>
    requires { amounts boxes.now < 2 ^ 62 }
    ensures { IfOk result (λ list. list ≡ opening_list layout.now.dims layout.now.cells boxes.now block.now) }
{
    let near = boxes_in(alloc, layout, boxes, block)?;
    if near.is_empty() {
        return Cells::zeros(alloc, layout.interior_len());
    }
    shares(alloc, layout, near.as_slice(), block)
}

/// The totals of a field at the start, which the boxes of the field put there.
fn opening_field(
    alloc: Global,
    layout: &Layout,
    tree: &Tree,
    boxes: &[StartBox],
) -> Result<FieldTotals, NoMemory>
    requires { amounts boxes.now < 2 ^ 62 }
    ensures { IfOk result (λ lists. lists ≡ map (opening_list layout.now.dims layout.now.cells boxes.now)
        (leaves tree.now)) }
{
    let mut lists = FieldTotals::new(alloc);
    for leaf in 0..tree.len() {
        lists.push(opening_block(alloc, layout, boxes, &tree.leaf_at(leaf))?)?;
    }
    Ok(lists)
}

/// The totals with which a problem's run starts, by field and leaf of the opening tree.
///
/// A cell of a finer level has its share of the root cell that it lies in, level by level.
pub fn opening_lists(
    alloc: Global,
    problem: &Problem,
    tree: &Tree,
    layout: &Layout,
) -> Result<Vec<FieldTotals>, NoMemory>
    requires tree { tree.now ≡ tree_with problem.now.shape (opening_tree (settings_of problem.now)) }
    requires dims { layout.now.dims ≡ problem.now.shape.dims }
    requires cells { layout.now.cells ≡ problem.now.cells }
    ensures mesh { IfOk result (λ lists. mesh_of tree.now problem.now.cells lists.items
        ≡ opening_mesh (settings_of problem.now)) }
    ensures lists { IfOk result (λ lists. HaveLeafLists (field_count (settings_of problem.now))
        (leaves tree.now) lists.items) }
{
    let mut lists = Vec::new(alloc);
    for field in 0..problem.fields.count() {
        let boxes = boxes_of(alloc, problem.boxes.as_slice(), field)?;
        lists.push(opening_field(alloc, layout, tree, boxes.as_slice())?)?;
    }
    Ok(lists)
}
