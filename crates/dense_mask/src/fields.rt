//! What a problem says of a field.

ghost use Rattle.std.specs.Prelude.{◌≡◌, ◌<◌};
ghost use Rattle.problem_set.specs.SettingsOf.{settings_of};
ghost use Rattle.mesh_rules.specs.Fields.{field_count, is_sparse};

use package_fields::Flag;
use problem_set::Problem;

/// Whether blocks may go without a field, by its number.
pub fn is_sparse(problem: &Problem, field: u32) -> bool
    requires { field < field_count (settings_of problem.now) }
    ensures { result ≡ is_sparse (settings_of problem.now) field }
{
    problem.fields.has(field, Flag::Sparse)
}
