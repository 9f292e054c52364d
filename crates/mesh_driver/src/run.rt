ghost use Rattle.std.specs.Prelude.{◌≡◌, ◌+◌, ◌++◌, ◌<◌, [], ◌∷◌, Err, IfOk, IfErr, OnOk, codes};
ghost use Rattle.std.specs.Option.{ForSome};
ghost use Rattle.problem_set.specs.SettingsOf.{settings_of};
ghost use Rattle.dense_model.specs.RunFiles.{IsRunning, run_of};
ghost use Rattle.mesh_rules.specs.Files.{history_file_name, lines_of_cycle};
ghost use Rattle.mesh_rules.specs.Reaction.{kernel_of};
ghost use Rattle.mesh_rules.specs.Texts.{history_heading, line};
ghost use Rattle.mesh_outside.specs.Depot.{AfterWrites};
ghost use Rattle.mesh_outside.specs.Gained.{IsClosed, Gains};
ghost use Rattle.mesh_driver.specs.Files.{end_of, files_at, files_of, whole_file};
ghost use Rattle.mesh_driver.specs.Stops.{Stops, StopsAmong, StopsIn, StopsWriting};

use crate::DriveFault;
use crate::dumps::write_dump;
use dense_model::DenseRun;
use mesh_outside::{Depot, write_file};
use mesh_texts::{history_file_name, is_dumped, push_end, push_history_heading};
use problem_set::Problem;
use std::alloc::Global;

/// How a completed run ended.
#[derive(Clone, Copy, Debug, PartialEq, Eq)]
pub struct RunEnd {
    /// The number of cycles.
    pub cycles: u32,
    /// The number of leaves after the last cycle.
    pub blocks: u32,
    /// What all totals of all fields add up to after the last cycle.
    pub total: u64,
}

/// Runs a problem to its last cycle, and writes its files: each dump as soon as it is due, and last the history. Their
/// names begin with the prefix.
///
/// Where a tree has too many leaves the depot gained the dumps of the cycles before. After a fault of writing, or for
/// want of memory, it gained a prefix of the files, the last one perhaps unfinished.
pub fn drive<D: Depot>(
    alloc: Global,
    problem: &Problem,
    prefix: &str,
    depot: &mut D,
) -> Result<RunEnd, DriveFault>
    requires { ForSome (D.seen depot.old).written IsClosed }
    ensures ok { OnOk result (Gains (D.seen depot.old).written (D.seen depot.new).written (files_of
        (settings_of problem.now) prefix.now)) }
    ensures completed { OnOk result (IsRunning (run_of (settings_of problem.now) problem.now.nlim)) }
    ensures end { IfOk result (λ end. end ≡ end_of (settings_of problem.now)) }
    ensures err { IfErr result (Stops (settings_of problem.now) prefix.now (D.seen depot.old).written
        (D.seen depot.new).written) }
    ensures after { AfterWrites (result ≡ Err DriveFault.WriteFault) (D.seen depot.old) (D.seen depot.new) }
{
    let mut run = DenseRun::start(alloc, problem)?;
    let mut history = Vec::new(alloc);
    write_opening(alloc, &run, problem, prefix, &mut history, depot)?;
    'cycles: while !run.is_finished() {
        advance(alloc, &mut run, problem, prefix, &mut history, depot)?;
    }
    write_history(alloc, prefix, &mut history, depot)?;
    Ok(RunEnd {
        cycles: run.cycles(),
        blocks: run.leaves(),
        total: run.total(),
    })
}

/// Writes the opening dump, and begins the history.
fn write_opening<'a, D: Depot>(
    alloc: Global,
    run: &DenseRun<'a>,
    problem: &Problem,
    prefix: &str,
    history: &mut Vec<u8>,
    depot: &mut D,
) -> Result<(), DriveFault>
    requires same { run.now ≡ record { problem = settings_of problem.now; cycle = 0 } }
    requires running { IsRunning (run_of (settings_of problem.now) 0) }
    requires closed { ForSome (D.seen depot.old).written IsClosed }
    ensures ok { OnOk result (Gains (D.seen depot.old).written (D.seen depot.new).written (files_at
        (settings_of problem.now) prefix.now 0)) }
    ensures lines { OnOk result (history.new.items ≡ history.old.items ++ (history_heading (settings_of problem.now)
        ++ lines_of_cycle (settings_of problem.now) (kernel_of (settings_of problem.now)) 0)) }
    ensures err { IfErr result (StopsIn (settings_of problem.now) prefix.now 0 (D.seen depot.old).written
        (D.seen depot.new).written) }
    ensures after { AfterWrites (result ≡ Err DriveFault.WriteFault) (D.seen depot.old) (D.seen depot.new) }
{
    push_history_heading(problem, history)?;
    write_cycle(alloc, run, problem, prefix, history, depot)
}

/// Runs one more cycle, and writes what is due after it.
fn advance<'a, D: Depot>(
    alloc: Global,
    run: &mut DenseRun<'a>,
    problem: &Problem,
    prefix: &str,
    history: &mut Vec<u8>,
    depot: &mut D,
) -> Result<(), DriveFault>
    requires same { run.old.problem ≡ settings_of problem.now }
    requires unfinished { run.old.cycle < run.old.problem.nlim }
    requires closed { ForSome (D.seen depot.old).written IsClosed }
    ensures next { OnOk result (run.new ≡ record run.old { cycle = run.old.cycle + 1 }) }
    ensures running { OnOk result (IsRunning (run_of (settings_of problem.now) (run.old.cycle + 1))) }
    ensures ok { OnOk result (Gains (D.seen depot.old).written (D.seen depot.new).written (files_at
        (settings_of problem.now) prefix.now (run.old.cycle + 1))) }
    ensures lines { OnOk result (history.new.items ≡ history.old.items
        ++ lines_of_cycle (settings_of problem.now) (kernel_of (settings_of problem.now)) (run.old.cycle + 1)) }
    ensures err { IfErr result (StopsIn (settings_of problem.now) prefix.now (run.old.cycle + 1)
        (D.seen depot.old).written (D.seen depot.new).written) }
    ensures after { AfterWrites (result ≡ Err DriveFault.WriteFault) (D.seen depot.old) (D.seen depot.new) }
{
    run.cycle()?;
    write_cycle(alloc, run, problem, prefix, history, depot)
}

/// Writes the dump of the cycle that was run, where one is due, and adds its lines to the history.
fn write_cycle<'a, D: Depot>(
    alloc: Global,
    run: &DenseRun<'a>,
    problem: &Problem,
    prefix: &str,
    history: &mut Vec<u8>,
    depot: &mut D,
) -> Result<(), DriveFault>
    requires same { run.now.problem ≡ settings_of problem.now }
    requires running { IsRunning (run_of (settings_of problem.now) run.now.cycle) }
    requires closed { ForSome (D.seen depot.old).written IsClosed }
    ensures ok { OnOk result (Gains (D.seen depot.old).written (D.seen depot.new).written (files_at
        (settings_of problem.now) prefix.now run.now.cycle)) }
    ensures lines { OnOk result (history.new.items ≡ history.old.items
        ++ lines_of_cycle (settings_of problem.now) (kernel_of (settings_of problem.now)) run.now.cycle) }
    ensures err { IfErr result (StopsAmong (files_at (settings_of problem.now) prefix.now run.now.cycle)
        (D.seen depot.old).written (D.seen depot.new).written) }
    ensures after { AfterWrites (result ≡ Err DriveFault.WriteFault) (D.seen depot.old) (D.seen depot.new) }
{
    write_due_dump(alloc, run, problem, prefix, depot)?;
    run.push_history(history)?;
    Ok(())
}

/// Writes the dump of the cycle that was run, where one is due.
fn write_due_dump<'a, D: Depot>(
    alloc: Global,
    run: &DenseRun<'a>,
    problem: &Problem,
    prefix: &str,
    depot: &mut D,
) -> Result<(), DriveFault>
    requires same { run.now.problem ≡ settings_of problem.now }
    requires running { IsRunning (run_of (settings_of problem.now) run.now.cycle) }
    requires closed { ForSome (D.seen depot.old).written IsClosed }
    ensures ok { OnOk result (Gains (D.seen depot.old).written (D.seen depot.new).written (files_at
        (settings_of problem.now) prefix.now run.now.cycle)) }
    ensures err { IfErr result (StopsWriting (files_at (settings_of problem.now) prefix.now run.now.cycle)
        (D.seen depot.old).written (D.seen depot.new).written) }
    ensures after { AfterWrites (result ≡ Err DriveFault.WriteFault) (D.seen depot.old) (D.seen depot.new) }
{
    if is_dumped(problem, run.cycles()) {
        write_dump(alloc, run, prefix, depot)
    } else {
        Ok(())
    }
}

/// Ends the history with its last line, and writes it.
fn write_history<D: Depot>(
    alloc: Global,
    prefix: &str,
    history: &mut Vec<u8>,
    depot: &mut D,
) -> Result<(), DriveFault>
    requires { ForSome (D.seen depot.old).written IsClosed }
    ensures ok { OnOk result (Gains (D.seen depot.old).written (D.seen depot.new).written
        (whole_file (history_file_name prefix.now, history.old.items ++ line (codes "end")) ∷ [])) }
    ensures err { IfErr result (StopsWriting (whole_file (history_file_name prefix.now, history.old.items ++ line (codes "end")) ∷ [])
        (D.seen depot.old).written (D.seen depot.new).written) }
    ensures after { AfterWrites (result ≡ Err DriveFault.WriteFault) (D.seen depot.old) (D.seen depot.new) }
{
    push_end(history)?;
    let name = history_file_name(alloc, prefix)?;
    write_file(depot, name.as_str(), history.as_slice())?;
    Ok(())
}
