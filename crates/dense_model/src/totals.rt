//! What all totals add up to, and what a field has in the history.

ghost use Rattle.std.specs.Prelude.{◌≡◌, ◌≤◌, ◌-◌, ◌^◌, IfOk};
ghost use Rattle.problem_set.specs.SettingsOf.{settings_of};
ghost use Rattle.mesh_rules.specs.Fit.{sum_of_all};
ghost use Rattle.dense_mesh.specs.Meshes.{IsMeshIn, mesh_of};

use block_layout::Layout;
use block_tree::Tree;
use dense_mask::field_total;
use dense_mesh::FieldTotals;
use problem_set::Problem;

/// What all totals of all fields add up to.
pub(crate) fn sum_of_totals(
    problem: &Problem,
    tree: &Tree,
    layout: &Layout,
    lists: &[FieldTotals],
) -> u64
    requires { IsMeshIn (settings_of problem.now) tree.now layout.now lists.now }
    ensures value { result ≡ sum_of_all (settings_of problem.now) (mesh_of tree.now problem.now.cells lists.now) }
    ensures within { result ≤ 2 ^ 62 - 1 }
{
    let mut sum = 0;
    for field in 0..problem.moves.len() as u32 {
        sum += field_total(problem, tree, layout, lists, field);
    }
    sum
}
