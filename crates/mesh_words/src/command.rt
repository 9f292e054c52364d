ghost use Rattle.std.specs.Prelude.{◌≡◌, IfOk, false};
ghost use Rattle.clap.specs.Words.{app_of, rule_of, with_rule};
ghost use Rattle.mesh_words.specs.Command.{with_inputs, with_values, with_rest, bare, command, option_rule, flag_rule};
ghost use Rattle.mesh_words.specs.Command.{overrides_rule};

use clap::{Arg, ArgAction, Command};
use std::alloc::{AllocError, Global};

fn option<'a>(alloc: Global, id: &'a str, letter: char) -> Arg<'a>
    ensures rule { rule_of result ≡ option_rule id.entry.now letter }
    ensures local { result.global ≡ false }
{
    Arg::new(alloc, id).short(letter)
}

fn flag<'a>(alloc: Global, id: &'a str, letter: char) -> Arg<'a>
    ensures rule { rule_of result ≡ flag_rule id.entry.now letter }
    ensures local { result.global ≡ false }
{
    Arg::new(alloc, id).short(letter).action(ArgAction::SetTrue)
}

fn overrides<'a>(alloc: Global) -> Arg<'a>
    ensures rule { rule_of result ≡ overrides_rule }
    ensures local { result.global ≡ false }
{
    Arg::new(alloc, "overrides").num_args(0..)
}

fn bare<'a>(alloc: Global) -> Command<'a>
    ensures { app_of result ≡ bare }
{
    Command::new(alloc, "parthenon_whole")
        .no_binary_name(true)
        .disable_help_flag(true)
        .disable_version_flag(true)
}

fn with<'a>(command: Command<'a>, arg: Arg<'a>) -> Result<Command<'a>, AllocError>
    requires { arg.global ≡ false }
    ensures { IfOk result (λ c. app_of c ≡ with_rule (app_of command.entry) (rule_of arg.entry)) }
{
    command.arg(arg)
}

fn with_inputs<'a>(alloc: Global, command: Command<'a>) -> Result<Command<'a>, AllocError>
    ensures { IfOk result (λ c. app_of c ≡ with_inputs (app_of command.entry)) }
{
    let first = with(command, option(alloc, "input", 'i'))?;
    let second = with(first, option(alloc, "generate", 'g'))?;
    with(second, flag(alloc, "large", 'l'))
}

fn with_values<'a>(alloc: Global, command: Command<'a>) -> Result<Command<'a>, AllocError>
    ensures { IfOk result (λ c. app_of c ≡ with_values (app_of command.entry)) }
{
    let first = with(command, option(alloc, "workers", 'w'))?;
    with(first, option(alloc, "prefix", 'd'))
}

fn with_rest<'a>(alloc: Global, command: Command<'a>) -> Result<Command<'a>, AllocError>
    ensures { IfOk result (λ c. app_of c ≡ with_rest (app_of command.entry)) }
{
    let first = with(command, flag(alloc, "events", 't'))?;
    let second = with(first, flag(alloc, "print", 'n'))?;
    with(second, overrides(alloc))
}

/// The command of the program.
pub fn command<'a>(alloc: Global) -> Result<Command<'a>, AllocError>
    ensures { IfOk result (λ c. app_of c ≡ command) }
{
    let inputs = with_inputs(alloc, bare(alloc))?;
    let values = with_values(alloc, inputs)?;
    with_rest(alloc, values)
}
