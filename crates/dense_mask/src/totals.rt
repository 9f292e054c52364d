//! The total of a field on a whole mesh.

ghost use Rattle.std.specs.Prelude.{◌≡◌, ◌<◌, ◌≤◌, ◌^◌, ◌-◌, sum};
ghost use Rattle.problem_set.specs.SettingsOf.{settings_of};
ghost use Rattle.mesh_rules.specs.Fields.{field_count};
ghost use Rattle.mesh_rules.specs.Mesh.{total_of};
ghost use Rattle.dense_mesh.specs.Meshes.{IsMeshIn, mesh_of};
ghost use Rattle.dense_mask.specs.Totals.{list_total};

use block_layout::Layout;
use block_tree::Tree;
use cell_lists::Cells;
use dense_mesh::FieldTotals;
use problem_set::Problem;

/// The sum of a block's totals.
pub(crate) fn block_total(cells: &[u64]) -> u64
    requires { sum cells.now < 2 ^ 64 }
    ensures { result ≡ sum cells.now }
{
    cells.iter().sum()
}

/// The sum of the totals of all blocks.
fn blocks_total(blocks: &[Cells]) -> u64
    requires { list_total blocks.now < 2 ^ 64 }
    ensures { result ≡ list_total blocks.now }
{
    let mut total = 0;
    for cells in blocks {
        total += block_total(cells.as_slice());
    }
    total
}

/// The total of a field on the whole mesh, by the field's number.
pub fn field_total(
    problem: &Problem,
    tree: &Tree,
    layout: &Layout,
    lists: &[FieldTotals],
    field: u32,
) -> u64
    requires mesh { IsMeshIn (settings_of problem.now) tree.now layout.now lists.now }
    requires field { field < field_count (settings_of problem.now) }
    ensures total { result ≡ total_of (mesh_of tree.now problem.now.cells lists.now) field }
    ensures bound { result ≤ 2 ^ 62 - 1 }
{
    blocks_total(lists[field as usize].as_slice())
}
