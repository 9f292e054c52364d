//! Rates and multipliers that are made once for a field and a level.

ghost use Rattle.std.specs.Prelude.{◌≡◌, ◌+◌, ◌*◌, ◌<◌, ◌≤◌, ◌^◌, All, IfOk, OnOk, length, replicate};
ghost use Rattle.problem_set.specs.SettingsOf.{settings_of};
ghost use Rattle.leaf_stages.specs.Rates.{AreLevelPortions};
ghost use Rattle.stage_tasks.specs.Portions.{IsMade};

use leaf_stages::{LevelPortions, level_portions};
use mesh_num::NoMemory;
use problem_set::Problem;
use std::alloc::Global;

/// Those of a field at a level.
#[derive(Clone, Copy)]
pub(crate) struct FieldPortions {
    pub(crate) field: u32,
    pub(crate) portions: LevelPortions,
}

/// How many fields and levels there are.
fn table_size(problem: &Problem) -> usize
    ensures { result ≡ length problem.now.moves * problem.now.levels }
{
    problem.moves.len() * problem.levels as usize
}

/// A table that says for each field and level under which number of a list its portions may stand.
pub(crate) fn no_numbers(alloc: Global, problem: &Problem) -> Result<Vec<usize>, NoMemory>
    ensures { IfOk result (λ numbers. length numbers.items ≡ length problem.now.moves * problem.now.levels) }
{
    Ok(vec![in alloc; 0usize; table_size(problem)]?)
}

/// The place of a field and a level in the table.
fn number_at(problem: &Problem, field: u32, level: u32) -> usize
    requires field { field < length problem.now.moves }
    requires level { level < problem.now.levels }
    ensures { result < length problem.now.moves * problem.now.levels }
{
    field as usize * problem.levels as usize + level as usize
}

/// The rates and multipliers of a field at a level, which are made only where no call has made them yet.
pub(crate) fn portions_of(
    problem: &Problem,
    field: u32,
    level: u32,
    numbers: &mut Vec<usize>,
    made: &mut Vec<FieldPortions>,
) -> Result<LevelPortions, NoMemory>
    requires field { field < length problem.now.moves }
    requires level { level < problem.now.levels }
    requires numbers { length numbers.old.items ≡ length problem.now.moves * problem.now.levels }
    requires made { All (IsMade (settings_of problem.now)) made.old.items }
    ensures portions { IfOk result (AreLevelPortions (settings_of problem.now) field) }
    ensures level { IfOk result (λ portions. portions.level ≡ level) }
    ensures numbers { length numbers.new.items ≡ length numbers.old.items }
    ensures made { OnOk result (All (IsMade (settings_of problem.now)) made.new.items) }
{
    let at = number_at(problem, field, level);
    let number = numbers[at];
    if number < made.len() {
        let there = made[number];
        if there.field == field && there.portions.level == level {
            return Ok(there.portions);
        }
    }
    let portions = level_portions(problem, field, level);
    numbers[at] = made.len();
    made.push(FieldPortions { field, portions })?;
    Ok(portions)
}
