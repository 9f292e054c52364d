//! The total of a cell beyond a face of the domain.

ghost use Rattle.std.specs.Prelude.{◌≡◌, ◌<◌, ◌≤◌, length};
ghost use Rattle.problem_set.specs.SettingsOf.{settings_of};
ghost use Rattle.mesh_rules.specs.Fields.{entering, outside as outside_of, side_number as number_of_side};

use morton_order::Side;
use package_fields::Flag;
use problem_set::{FaceKind, Problem};

/// The number of a side: x1 low, x1 high, x2 low and so on.
fn side_number(side: Side) -> usize
    requires { side.axis < 3 }
    ensures value { result ≡ number_of_side side.axis side.high }
    ensures within { result < 6 }
{
    let low = 2 * side.axis as usize;
    if side.high { low + 1 } else { low }
}

/// What stands outside of an inflow face at a cell of a level: the field's amount spread evenly over the cells of a
/// root cell; nothing of a field without ghosts.
fn entering_at(problem: &Problem, field: u32, side: Side, level: u32) -> u64
    requires field { field < length problem.now.moves }
    requires axis { side.axis < 3 }
    requires level { level ≤ 10 }
    ensures { result ≡ entering (settings_of problem.now) field side.axis side.high level }
{
    if problem.fields.has(field, Flag::FillGhost) {
        let moves = problem.moves.as_slice()[field as usize];
        moves.entry[side_number(side)] >> (problem.shape.dims * level)
    } else {
        0
    }
}

/// The total of a field in each ghost beyond a face of the domain, on a block of a level. At a periodic face, beyond
/// which the mesh goes on, it is 0.
pub fn ghost_of(problem: &Problem, field: u32, side: Side, level: u32) -> u64
    requires field { field < length problem.now.moves }
    requires axis { side.axis < problem.now.shape.dims }
    requires level { level ≤ 10 }
    ensures { result ≡ outside_of (settings_of problem.now) field side.axis side.high level }
{
    match problem.faces.as_slice()[side_number(side)] {
        FaceKind::Inflow => entering_at(problem, field, side, level),
        FaceKind::Periodic | FaceKind::Outflow | FaceKind::Reflecting => 0,
    }
}
