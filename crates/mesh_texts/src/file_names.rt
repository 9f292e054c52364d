//! The names of the files of a run, and when there is a dump.

ghost use Rattle.std.specs.Prelude.{◌≡◌, IfOk};
ghost use Rattle.std.specs.String.{string_bytes};
ghost use Rattle.problem_set.specs.SettingsOf.{settings_of};
ghost use Rattle.mesh_rules.specs.Files.{dump_file_name, history_file_name, is_dumped};

use mesh_num::NoMemory;
use problem_set::Problem;
use std::alloc::Global;

/// The name of a cycle's dump: `PREFIX.000000.dump` is the opening one.
pub fn dump_file_name(alloc: Global, prefix: &str, cycle: u32) -> Result<String, NoMemory>
    ensures { IfOk result (λ name. string_bytes name ≡ dump_file_name prefix.now cycle) }
{
    let name = format!(in alloc; "{prefix}.{cycle:06}.dump")?;
    Ok(name)
}

/// The name of the history: `PREFIX.hist`.
pub fn history_file_name(alloc: Global, prefix: &str) -> Result<String, NoMemory>
    ensures { IfOk result (λ name. string_bytes name ≡ history_file_name prefix.now) }
{
    let name = format!(in alloc; "{prefix}.hist")?;
    Ok(name)
}

/// Whether a dump follows a cycle: each whose number is a multiple of the problem's `dump_every`, the
/// opening included, and the last one.
pub fn is_dumped(problem: &Problem, cycle: u32) -> bool
    ensures { result ≡ is_dumped (settings_of problem.now) cycle }
{
    cycle % problem.dump_every == 0 || cycle == problem.nlim
}
