//! The files of a run so far, from a run of its own.

ghost use Rattle.std.specs.Prelude.{◌≡◌, ◌+◌, ◌++◌, ◌==◌, ◌<◌, ◌≤◌, [], ◌∷◌, cond, codes, IfOk, OnOk, map};
ghost use Rattle.std.specs.String.{string_bytes};
ghost use Rattle.problem_set.specs.SettingsOf.{settings_of};
ghost use Rattle.mesh_rules.specs.Files.{dumps_of_cycle, history_file_name, lines_of_cycle};
ghost use Rattle.mesh_rules.specs.Reaction.{kernel_of};
ghost use Rattle.mesh_rules.specs.Texts.{history_heading, line};
ghost use Rattle.dense_model.specs.Files.{file_of, files_until};
ghost use Rattle.dense_model.specs.RunFiles.{IsRunning, run_of};

use crate::DenseRun;
use mesh_num::NoMemory;
use mesh_outside::{Bytes, File, Files, Name};
use mesh_texts::{dump_file_name, history_file_name, is_dumped, push_end, push_history_heading};
use problem_set::Problem;
use std::alloc::Global;

/// The files of a problem's run up to a cycle that it comes to: its dumps, and last the history after the last cycle.
pub(crate) fn files_until(
    alloc: Global,
    problem: &Problem,
    prefix: &str,
    cycle: u32,
) -> Result<Files, NoMemory>
    requires { cycle ≤ problem.now.nlim }
    ensures { IfOk result (λ files. files ≡ map file_of (files_until (settings_of problem.now) prefix.now cycle)) }
{
    let mut run = begin(alloc, problem)?;
    let mut files = Files::new(alloc);
    let mut history = Vec::new(alloc);
    push_history_heading(problem, &mut history)?;
    push_cycle(alloc, &run, problem, prefix, &mut files, &mut history)?;
    'cycles: while run.cycles() < cycle {
        push_next(alloc, &mut run, problem, prefix, &mut files, &mut history)?;
    }
    push_last(alloc, &run, prefix, history, &mut files)?;
    Ok(files)
}

/// The run before its first cycle. Where its first tree were refused, it would come to no cycle at all.
fn begin<'a>(alloc: Global, problem: &'a Problem) -> Result<DenseRun<'a>, NoMemory>
    ensures started { IfOk result (λ run. run ≡ record { problem = settings_of problem.now; cycle = 0 }) }
    ensures running { OnOk result (IsRunning (run_of (settings_of problem.now) 0)) }
{
    match DenseRun::start(alloc, problem) {
        Ok(run) => Ok(run),
        Err(_) => Err(NoMemory),
    }
}

/// Runs one more cycle, and adds what it gives.
fn push_next<'a>(
    alloc: Global,
    run: &mut DenseRun<'a>,
    problem: &Problem,
    prefix: &str,
    files: &mut Files,
    history: &mut Vec<u8>,
) -> Result<(), NoMemory>
    requires same { run.old.problem ≡ settings_of problem.now }
    requires unfinished { run.old.cycle < run.old.problem.nlim }
    ensures next { OnOk result (run.new ≡ record run.old { cycle = run.old.cycle + 1 }) }
    ensures running { OnOk result (IsRunning (run_of (settings_of problem.now) (run.old.cycle + 1))) }
    ensures files { OnOk result (files.new ≡ files.old ++ map file_of (dumps_of_cycle (settings_of problem.now)
        (kernel_of (settings_of problem.now)) prefix.now (run.old.cycle + 1))) }
    ensures lines { OnOk result (history.new.items ≡ history.old.items
        ++ lines_of_cycle (settings_of problem.now) (kernel_of (settings_of problem.now)) (run.old.cycle + 1)) }
{
    run.cycle().map_err(|_| NoMemory)?;
    push_cycle(alloc, run, problem, prefix, files, history)
}

/// Adds what a cycle gives: its dump, where one is due, and its lines of the history.
fn push_cycle<'a>(
    alloc: Global,
    run: &DenseRun<'a>,
    problem: &Problem,
    prefix: &str,
    files: &mut Files,
    history: &mut Vec<u8>,
) -> Result<(), NoMemory>
    requires same { run.now.problem ≡ settings_of problem.now }
    requires running { IsRunning (run_of (settings_of problem.now) run.now.cycle) }
    ensures files { OnOk result (files.new ≡ files.old ++ map file_of (dumps_of_cycle (settings_of problem.now)
        (kernel_of (settings_of problem.now)) prefix.now run.now.cycle)) }
    ensures lines { OnOk result (history.new.items ≡ history.old.items
        ++ lines_of_cycle (settings_of problem.now) (kernel_of (settings_of problem.now)) run.now.cycle) }
{
    push_dump(alloc, run, problem, prefix, files)?;
    run.push_history(history)
}

/// Adds the dump of a cycle, where one is due.
fn push_dump<'a>(
    alloc: Global,
    run: &DenseRun<'a>,
    problem: &Problem,
    prefix: &str,
    files: &mut Files,
) -> Result<(), NoMemory>
    requires same { run.now.problem ≡ settings_of problem.now }
    requires running { IsRunning (run_of (settings_of problem.now) run.now.cycle) }
    ensures { OnOk result (files.new ≡ files.old ++ map file_of (dumps_of_cycle (settings_of problem.now)
        (kernel_of (settings_of problem.now)) prefix.now run.now.cycle)) }
{
    if !is_dumped(problem, run.cycles()) {
        return Ok(());
    }
    let name = dump_file_name(alloc, prefix, run.cycles())?;
    let text = run.dump()?;
    push_file(files, name, text)
}

/// Adds the history, once all cycles were run.
fn push_last<'a>(
    alloc: Global,
    run: &DenseRun<'a>,
    prefix: &str,
    history: Vec<u8>,
    files: &mut Files,
) -> Result<(), NoMemory>
    ensures { OnOk result (files.new ≡ files.old ++ map file_of (cond (run.now.cycle == run.now.problem.nlim)
        ((history_file_name prefix.now, history.items ++ line (codes "end")) ∷ []) [])) }
{
    if !run.is_finished() {
        return Ok(());
    }
    let mut history = history;
    push_end(&mut history)?;
    let name = history_file_name(alloc, prefix)?;
    push_file(files, name, history)
}

/// Adds a file.
fn push_file(files: &mut Files, name: String, bytes: Vec<u8>) -> Result<(), NoMemory>
    ensures { OnOk result (files.new ≡ files.old ++ file_of (string_bytes name, bytes.items) ∷ []) }
{
    files.push(File {
        name: Name::of(name),
        bytes: Bytes::of(bytes),
    })?;
    Ok(())
}
