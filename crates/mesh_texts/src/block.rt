//! The lines of a block.

ghost use Rattle.std.specs.Prelude.{◌≡◌, ◌*◌, ◌<◌, ◌≤◌, ◌++◌, [], ◌∷◌, OnOk, Some, length, map, codes, count_by, slice_get};
ghost use Rattle.std.specs.List.{flat_map, join_with_byte, slice_index_or};
ghost use Rattle.std.specs.Fmt.{decimal};
ghost use Rattle.morton_order.specs.declared.space.Loc.{Loc};
ghost use Rattle.block_tree.specs.Blocks.{leaves};
ghost use Rattle.problem_set.specs.SettingsOf.{settings_of};
ghost use Rattle.mesh_rules.specs.Fields.{field_count};
ghost use Rattle.mesh_rules.specs.Texts.{block_text, is_zero, line, rows};
ghost use Rattle.dense_mesh.specs.Meshes.{IsMeshIn, mesh_of};
ghost use Rattle.mesh_texts.specs.Sizes.{AreBlocks, HaveBlocks, leaf_lists, row_count, row_width};
ghost use Rattle.mesh_texts.specs.Pieces.{block_lines, field_lines, fields_lines, place_line};

use crate::pieces::{
    push_byte, push_bytes, push_line, push_named, push_named_line, push_next, push_number,
    push_three,
};
use block_layout::Layout;
use block_tree::Tree;
use dense_mesh::FieldTotals;
use mesh_num::NoMemory;
use morton_order::Loc;
use package_fields::Registry;
use problem_set::Problem;

/// Appends the lines of a leaf: its place with the number of fields that are all zero there, and the rows of the
/// others. `lists` has the totals by field and leaf, in blocks of the layout.
pub fn push_block(
    problem: &Problem,
    tree: &Tree,
    layout: &Layout,
    lists: &[FieldTotals],
    leaf: u32,
    into: &mut Vec<u8>,
) -> Result<(), NoMemory>
    requires mesh { IsMeshIn (settings_of problem.now) tree.now layout.now lists.now }
    requires leaf { leaf < length (leaves tree.now) }
    ensures { (l : Loc) → slice_get (leaves tree.now) leaf ≡ Some l → OnOk result (into.new.items ≡ into.old.items
        ++ block_text (settings_of problem.now) (mesh_of tree.now problem.now.cells lists.now) leaf l) }
{
    push_leaf(problem, layout, lists, leaf, &tree.leaf_at(leaf), into)
}

/// Appends the lines of a leaf at a place.
pub(crate) fn push_leaf(
    problem: &Problem,
    layout: &Layout,
    lists: &[FieldTotals],
    leaf: u32,
    at: &Loc,
    into: &mut Vec<u8>,
) -> Result<(), NoMemory>
    requires fields { length lists.now ≡ field_count (settings_of problem.now) }
    requires blocks { AreBlocks layout.now (leaf_lists lists.now leaf) }
    ensures { OnOk result (into.new.items ≡ into.old.items
        ++ block_lines (settings_of problem.now) layout.now leaf at.now (leaf_lists lists.now leaf)) }
{
    let zeros = count_zeros(lists, leaf as usize);
    push_place(leaf, at, zeros as u64, into)?;
    push_fields(problem, layout, lists, leaf as usize, into)
}

/// A field's totals on a leaf.
fn totals_on(list: &FieldTotals, leaf: usize) -> &[u64]
    ensures { result.now ≡ slice_index_or list.now leaf [] }
{
    match list.get(leaf) {
        Some(cells) => cells.as_slice(),
        None => &[],
    }
}

/// Whether no cell has anything.
pub fn is_zero(totals: &[u64]) -> bool
    ensures { result ≡ is_zero totals.now }
{
    totals.iter().all(|total| *total == 0)
}

/// How many fields are all zero on a leaf.
fn count_zeros(lists: &[FieldTotals], leaf: usize) -> usize
    ensures { result ≡ count_by is_zero (leaf_lists lists.now leaf) }
{
    let mut count = 0;
    for list in lists {
        if is_zero(totals_on(list, leaf)) {
            count += 1;
        }
    }
    count
}

/// Appends the first line of a leaf: its number, its place, and how many fields are all zero there.
pub fn push_place(leaf: u32, at: &Loc, zeros: u64, into: &mut Vec<u8>) -> Result<(), NoMemory>
    ensures { OnOk result (into.new.items ≡ into.old.items ++ place_line leaf at.now zeros) }
{
    push_named(into, b"block ", u64::from(leaf))?;
    push_named(into, b" level ", u64::from(at.level))?;
    push_three(into, b" at ", &[at.l1, at.l2, at.l3])?;
    push_named_line(into, b" zero ", zeros)
}

/// Appends the lines of each field that is not all zero on a leaf.
fn push_fields(
    problem: &Problem,
    layout: &Layout,
    lists: &[FieldTotals],
    leaf: usize,
    into: &mut Vec<u8>,
) -> Result<(), NoMemory>
    requires fields { length lists.now ≡ field_count (settings_of problem.now) }
    requires blocks { AreBlocks layout.now (leaf_lists lists.now leaf) }
    ensures { OnOk result (into.new.items ≡ into.old.items
        ++ fields_lines (settings_of problem.now) layout.now (leaf_lists lists.now leaf)) }
{
    for (field, list) in lists.iter().enumerate() {
        let label = problem.fields.fields()[field].label.as_str();
        push_field(into, label, layout, totals_on(list, leaf))?;
    }
    Ok(())
}

/// Appends the lines of a field with these totals on a leaf, x1 fastest; none where they are all zero.
pub fn push_field(
    into: &mut Vec<u8>,
    label: &str,
    layout: &Layout,
    totals: &[u64],
) -> Result<(), NoMemory>
    requires { length totals.now ≡ row_width layout.now * row_count layout.now }
    ensures { OnOk result (into.new.items ≡ into.old.items
        ++ field_lines layout.now label.now totals.now) }
{
    if is_zero(totals) {
        return Ok(());
    }
    push_bytes(into, b"field ")?;
    push_line(into, label.as_bytes())?;
    push_rows(into, layout, totals)
}

/// Appends the rows of a block.
fn push_rows(into: &mut Vec<u8>, layout: &Layout, totals: &[u64]) -> Result<(), NoMemory>
    requires { length totals.now ≡ row_width layout.now * row_count layout.now }
    ensures { OnOk result (into.new.items ≡ into.old.items
        ++ rows (row_width layout.now) (row_count layout.now) totals.now) }
{
    let width = layout.cells[0] as usize;
    let count = layout.cells[1] as usize * layout.cells[2] as usize;
    for row in 0..count {
        let start = row * width;
        push_row(into, &totals[start..start + width])?;
    }
    Ok(())
}

/// Appends the line of a row.
fn push_row(into: &mut Vec<u8>, totals: &[u64]) -> Result<(), NoMemory>
    ensures { OnOk result (into.new.items ≡ into.old.items ++ line (join_with_byte 32 (map decimal totals.now))) }
{
    push_totals(into, totals)?;
    push_byte(into, b'\n')
}

/// Appends the totals of a row, one space between two.
fn push_totals(into: &mut Vec<u8>, totals: &[u64]) -> Result<(), NoMemory>
    ensures { OnOk result (into.new.items ≡ into.old.items ++ join_with_byte 32 (map decimal totals.now)) }
{
    let Some((first, rest)) = totals.split_first() else {
        return Ok(());
    };
    push_number(into, *first)?;
    push_others(into, rest)
}

/// Appends further totals of a row, each after a space.
fn push_others(into: &mut Vec<u8>, totals: &[u64]) -> Result<(), NoMemory>
    ensures { OnOk result (into.new.items ≡ into.old.items ++ flat_map (λ total. 32 ∷ decimal total) totals.now) }
{
    for total in totals {
        push_next(into, *total)?;
    }
    Ok(())
}
