ghost use Rattle.std.specs.Prelude.{◌≡◌, ◌≢◌, Err, map, string_bytes};
ghost use Rattle.std.specs.Option.{ForSome};
ghost use Rattle.problem_set.specs.SettingsOf.{settings_of};
ghost use Rattle.mesh_outside.specs.Depot.{AfterWrites};
ghost use Rattle.mesh_outside.specs.Gained.{IsClosed};
ghost use Rattle.mesh_words.specs.Arguments.{arguments_of};
ghost use Rattle.mesh_words.specs.Seen.{HasSeed, seen_source, seen_arguments};
ghost use Rattle.mesh_input.specs.Input.{seen_input};
ghost use Rattle.mesh_cli.specs.Steps.{AfterCall, AfterSource, AfterTaking, EndsAccepted, EndsBy, EndsWith, RunEnds, outcome_of_fault, outcome_of_usage};
ghost use Rattle.mesh_cli.specs.Verdicts.{AnswersSource, is_large, verdict_on};

use mesh_driver::{DriveFault, drive};
use mesh_input::{Input, InputFault, Refusal, accept_file, accept_seed};
use mesh_outcome::Outcome;
use mesh_outside::Depot;
use mesh_words::{Arguments, Source, UsageFault, read_arguments};
use problem_set::Problem;
use std::alloc::Global;

/// How a call with these words ends, before that is printed.
pub fn outcome_of<D: Depot>(alloc: Global, words: &[String], depot: &mut D) -> Outcome
    requires { ForSome (D.seen depot.old).written IsClosed }
    ensures ends { EndsWith (arguments_of (map string_bytes words.now)) result (D.seen depot.old) (D.seen depot.new) }
    ensures after { AfterCall (arguments_of (map string_bytes words.now)) result (D.seen depot.old) (D.seen depot.new) }
{
    match read_arguments(alloc, words) {
        Ok(arguments) => outcome_of_arguments(alloc, &arguments, depot),
        Err(fault) => outcome_of_usage(fault),
    }
}

// How a call ends whose words are refused.
fn outcome_of_usage(fault: UsageFault) -> Outcome
    ensures { result ≡ outcome_of_usage fault }
{
    match fault {
        UsageFault::NoMemory => Outcome::NoMemory,
        fault => Outcome::Usage { fault },
    }
}

// How a call whose words are accepted ends.
fn outcome_of_arguments<'a, D: Depot>(
    alloc: Global,
    arguments: &Arguments<'a>,
    depot: &mut D,
) -> Outcome
    requires closed { ForSome (D.seen depot.old).written IsClosed }
    requires seed { HasSeed arguments.now.source }
    ensures ends { EndsAccepted (seen_arguments arguments.now) result (D.seen depot.old) (D.seen depot.new) }
    ensures after { AfterSource (seen_source arguments.now.source) result (D.seen depot.old) (D.seen depot.new) }
{
    match accept_source(alloc, arguments, depot) {
        Ok(input) => outcome_of_input(alloc, arguments, input, depot),
        Err(fault) => outcome_of_fault(fault),
    }
}

// The input that the source of accepted words gives, with their overrides. Nothing is written.
fn accept_source<'a, D: Depot>(
    alloc: Global,
    arguments: &Arguments<'a>,
    depot: &mut D,
) -> Result<Input, InputFault>
    requires { HasSeed arguments.now.source }
    ensures answer { AnswersSource (D.seen depot.old).inputs (seen_arguments arguments.now) result }
    ensures after { AfterTaking (seen_source arguments.now.source) (result ≡ Err InputFault.ReadFault)
        (D.seen depot.old) (D.seen depot.new) }
{
    let overrides = arguments.overrides.as_slice();
    match arguments.source {
        Source::File(name) => accept_file(alloc, depot, name, overrides),
        Source::Seed { seed, large } => accept_seed(alloc, seed, large, overrides),
    }
}

// How a call ends that has no input.
fn outcome_of_fault(fault: InputFault) -> Outcome
    ensures { result ≡ outcome_of_fault fault }
{
    match fault {
        InputFault::Refused { refusal } => Outcome::Refused { refusal },
        InputFault::ReadFault => Outcome::ReadFault,
        InputFault::NoMemory => Outcome::NoMemory,
    }
}

// Lists the deck of an accepted input, or runs its problem.
fn outcome_of_input<'a, D: Depot>(
    alloc: Global,
    arguments: &Arguments<'a>,
    input: Input,
    depot: &mut D,
) -> Outcome
    requires { ForSome (D.seen depot.old).written IsClosed }
    ensures ends { EndsBy (seen_arguments arguments.now).prefix
        (verdict_on (seen_arguments arguments.now) (seen_input input)) result (D.seen depot.old).written
        (D.seen depot.new).written }
    ensures read { result ≢ Outcome.ReadFault }
    ensures after { AfterWrites (result ≡ Outcome.WriteFault) (D.seen depot.old) (D.seen depot.new) }
{
    if arguments.prints_deck {
        return Outcome::Listed { deck: input.deck };
    }
    if is_large(&arguments.source) {
        return Outcome::Refused {
            refusal: Refusal::NotBuilt,
        };
    }
    outcome_of_run(alloc, &input.problem, arguments.prefix, depot)
}

// Whether the large deck of a seed is asked for.
fn is_large<'a>(source: &Source<'a>) -> bool
    ensures { result ≡ is_large (seen_source source.now) }
{
    match source {
        Source::File(_) => false,
        Source::Seed { large, .. } => *large,
    }
}

// Runs a problem.
fn outcome_of_run<D: Depot>(
    alloc: Global,
    problem: &Problem,
    prefix: &str,
    depot: &mut D,
) -> Outcome
    requires { ForSome (D.seen depot.old).written IsClosed }
    ensures ends { RunEnds (settings_of problem.now) prefix.now result (D.seen depot.old).written
        (D.seen depot.new).written }
    ensures read { result ≢ Outcome.ReadFault }
    ensures after { AfterWrites (result ≡ Outcome.WriteFault) (D.seen depot.old) (D.seen depot.new) }
{
    match drive(alloc, problem, prefix, depot) {
        Ok(end) => Outcome::Done {
            cycles: end.cycles,
            blocks: end.blocks,
            total: end.total,
        },
        Err(DriveFault::WriteFault) => Outcome::WriteFault,
        Err(DriveFault::NoMemory) => Outcome::NoMemory,
        Err(DriveFault::TooManyAtStart) => Outcome::TooManyAtStart,
        Err(DriveFault::TooManyBlocks { cycle, leaves }) => {
            Outcome::TooManyBlocks { cycle, leaves }
        }
    }
}
