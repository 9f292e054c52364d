//! The lines of a block.

ghost use Rattle.std.specs.Prelude.{◌≡◌, ◌+◌, ◌<◌, ◌++◌, [], not, Some, IfOk, OnOk, count_by, length, slice_get};
ghost use Rattle.block_tree.specs.Blocks.{leaves};
ghost use Rattle.block_layout.specs.Layouts.{interior_len};
ghost use Rattle.morton_order.specs.declared.space.Loc.{Loc};
ghost use Rattle.problem_set.specs.SettingsOf.{settings_of};
ghost use Rattle.mesh_rules.specs.Fields.{field_at};
ghost use Rattle.mesh_rules.specs.Texts.{block_text, is_zero};
ghost use Rattle.mesh_texts.specs.Pieces.{field_lines, fields_lines};
ghost use Rattle.cell_block.specs.State.{HasLayout, IsIn, leaf_count};
ghost use Rattle.cell_block.specs.Rules.{IsStoredFor, interior_at, mesh_in};
ghost use Rattle.dump_writer.specs.Blocks.{interiors_on};
ghost use Rattle.dump_writer.specs.Pieces.{text_of};

use crate::piece::Piece;
use block_layout::Layout;
use cell_block::MeshState;
use mesh_num::NoMemory;
use mesh_texts::{is_zero, push_field, push_place};
use problem_set::Problem;
use sparse_pool::Place;

/// Appends the lines of a field on a block, none where it is all zero there, and says whether there were any. The cells
/// have room for the totals of a block.
fn push_field_at(
    problem: &Problem,
    mesh: &MeshState,
    layout: &Layout,
    at: Place,
    cells: &mut [u64],
    lines: &mut Vec<u8>,
) -> Result<bool, NoMemory>
    requires stored { IsStoredFor (settings_of problem.now) mesh.now }
    requires layout { HasLayout mesh.now layout.now }
    requires within { IsIn mesh.now at }
    requires cells { length cells.old ≡ interior_len layout.now }
    ensures cells { length cells.new ≡ interior_len layout.now }
    ensures lines { OnOk result (lines.new.items ≡ lines.old.items
        ++ field_lines layout.now (field_at (settings_of problem.now) at.field).label
        (interior_at layout.now mesh.now at)) }
    ensures shown { IfOk result (λ shown. shown ≡ not (is_zero (interior_at layout.now mesh.now at))) }
{
    mesh.interior(at, cells);
    if is_zero(cells) {
        return Ok(false);
    }
    let label = problem.fields.fields()[at.field as usize].label.as_str();
    push_field(lines, label, layout, cells)?;
    Ok(true)
}

/// Appends the lines of each field that is not all zero on a block, and answers how many fields are.
///
/// Fields that are not allocated there are passed over.
fn push_fields(
    problem: &Problem,
    mesh: &MeshState,
    layout: &Layout,
    leaf: u32,
    cells: &mut [u64],
    lines: &mut Vec<u8>,
) -> Result<u32, NoMemory>
    requires stored { IsStoredFor (settings_of problem.now) mesh.now }
    requires layout { HasLayout mesh.now layout.now }
    requires leaf { leaf < leaf_count mesh.now }
    requires cells { length cells.old ≡ interior_len layout.now }
    ensures lines { OnOk result (lines.new.items ≡ lines.old.items
        ++ fields_lines (settings_of problem.now) layout.now (interiors_on layout.now mesh.now leaf)) }
    ensures zeros { IfOk result (λ zeros. zeros ≡ count_by is_zero (interiors_on layout.now mesh.now leaf)) }
{
    let mut zeros = mesh.fields();
    let mut from = 0;
    while let Some(field) = mesh.next_field(leaf, from) {
        let at = Place { block: leaf, field };
        let shown = push_field_at(problem, mesh, layout, at, cells, lines)?;
        zeros -= u32::from(shown);
        from = field + 1;
    }
    Ok(zeros)
}

/// Writes the lines of a block into an empty piece: first its place with the number of fields that are all zero there,
/// then the rows of the others.
pub(crate) fn write_block(
    problem: &Problem,
    mesh: &MeshState,
    layout: &Layout,
    leaf: u32,
    cells: &mut Vec<u64>,
    piece: &mut Piece,
) -> Result<(), NoMemory>
    requires stored { IsStoredFor (settings_of problem.now) mesh.now }
    requires layout { HasLayout mesh.now layout.now }
    requires leaf { leaf < leaf_count mesh.now }
    requires first { piece.old.first.items ≡ [] }
    requires rest { piece.old.rest.items ≡ [] }
    ensures { (at : Loc) → slice_get (leaves mesh.now.tree) leaf ≡ Some at → OnOk result (text_of piece.new
        ≡ block_text (settings_of problem.now) (mesh_in layout.now mesh.now) leaf at) }
{
    cells.resize(layout.interior_len(), 0)?;
    let zeros = push_fields(
        problem,
        mesh,
        layout,
        leaf,
        cells.as_mut_slice(),
        &mut piece.rest,
    )?;
    let at = mesh.tree().leaf_at(leaf);
    push_place(leaf, &at, u64::from(zeros), &mut piece.first)
}
