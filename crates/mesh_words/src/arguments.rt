ghost use Rattle.std.specs.Prelude.{◌≡◌, ◌≢◌, ◌≤◌, ◌⊎◌, Err, Some, true, map, option_map, unwrap_or, codes, IfOk, IfErr, IfSome, ◌<◌, ◌^◌};
ghost use Rattle.std.specs.Option.{option_map_or};
ghost use Rattle.std.specs.String.{string_bytes};
ghost use Rattle.std.specs.Str.Parse.{digits_value};
ghost use Rattle.clap.specs.Words.{rows_of, found_of, kind_of, takes};
ghost use Rattle.mesh_words.specs.Command.{command};
ghost use Rattle.mesh_words.specs.Numbers.{is_seed, is_workers};
ghost use Rattle.mesh_words.specs.RawArguments.{first_fault, passes, overrides_by, raw_of};
ghost use Rattle.mesh_words.specs.Arguments.{source_of, arguments_of_rows, arguments_with, arguments_of};
ghost use Rattle.mesh_words.specs.Seen.{Answers, HasSeed, seen_raw, seen_source, seen_arguments};

use crate::command::command;
use crate::fault::UsageFault;
use crate::numbers::number_of;
use crate::raw_arguments::{RawArguments, first_fault, raw_of};
use clap::error::ErrorKind;
use clap::{ArgMatches, Error};
use std::alloc::Global;

/// Where the deck comes from.
#[derive(Clone, Copy, Debug)]
pub enum Source<'a> {
    /// The file of this name.
    File(&'a str),
    /// It is made of a seed below 2^31, the large one or the small one.
    Seed { seed: u32, large: bool },
}

/// The arguments of a call: what the words of its command line say.
#[derive(Drop)]
pub struct Arguments<'a> {
    /// Where the deck comes from.
    pub source: Source<'a>,
    /// The prefix of the names of the files.
    pub prefix: &'a str,
    /// The number of workers, from 1 to 64.
    pub workers: u32,
    /// Whether the deck is to be printed.
    pub prints_deck: bool,
    /// The overrides in their order.
    pub overrides: Vec<&'a str>,
}

/// Reads the words after the program's name.
///
/// They are refused where they are not the words of the command, or by the first rule that they break.
pub fn read_arguments<'a>(alloc: Global, words: &'a [String]) -> Result<Arguments<'a>, UsageFault>
    ensures answer { Answers seen_arguments result (arguments_of (map string_bytes words.now)) }
    ensures least_workers { IfOk result (λ w. 1 ≤ w.workers) }
    ensures most_workers { IfOk result (λ w. w.workers ≤ 64) }
    ensures seed { IfOk result (λ w. HasSeed w.source) }
    ensures taken { takes command (map string_bytes words.now) ≡ true → result ≢ Err UsageFault.NotTheCommand }
{
    let command = command(alloc)?;
    match command.try_get_matches_from(words) {
        Ok(matches) => accept(alloc, &matches),
        Err(error) => Err(refusal(&error)),
    }
}

fn refusal(error: &Error) -> UsageFault
    ensures { ((kind_of error.now ≡ ErrorKind.OutOfMemory) × (result ≡ UsageFault.NoMemory))
        ⊎ ((kind_of error.now ≢ ErrorKind.OutOfMemory) × (result ≡ UsageFault.NotTheCommand)) }
{
    match error.kind() {
        ErrorKind::OutOfMemory => UsageFault::NoMemory,
        _ => UsageFault::NotTheCommand,
    }
}

fn accept<'a>(alloc: Global, matches: &ArgMatches<'a>) -> Result<Arguments<'a>, UsageFault>
    ensures answer { Answers seen_arguments result (arguments_of_rows (rows_of (found_of matches.now))) }
    ensures least_workers { IfOk result (λ w. 1 ≤ w.workers) }
    ensures most_workers { IfOk result (λ w. w.workers ≤ 64) }
    ensures seed { IfOk result (λ w. HasSeed w.source) }
    ensures taken { result ≢ Err UsageFault.NotTheCommand }
    ensures rule { IfSome (first_fault (raw_of (rows_of (found_of matches.now)))) (λ fault. result ≡ Err fault) }
{
    let raw = raw_of(matches);
    match first_fault(&raw) {
        Some(fault) => Err(fault),
        None => arguments_with(alloc, &raw, matches),
    }
}

fn arguments_with<'a>(
    alloc: Global,
    raw: &RawArguments<'a>,
    matches: &ArgMatches<'a>,
) -> Result<Arguments<'a>, UsageFault>
    requires workers { passes is_workers (seen_raw raw.now).workers ≡ true }
    requires seed { passes is_seed (seen_raw raw.now).seed ≡ true }
    ensures answer { Answers seen_arguments result
        (arguments_with (seen_raw raw.now) (overrides_by (rows_of (found_of matches.now)))
        (source_of (seen_raw raw.now))) }
    ensures least_workers { IfOk result (λ w. 1 ≤ w.workers) }
    ensures most_workers { IfOk result (λ w. w.workers ≤ 64) }
    ensures seed { IfOk result (λ w. HasSeed w.source) }
    ensures taken { result ≢ Err UsageFault.NotTheCommand }
{
    match source_of(raw) {
        None => Err(UsageFault::NoInput),
        Some(source) => Ok(Arguments {
            source,
            prefix: prefix_of(raw.prefix),
            workers: workers_of(raw.workers),
            prints_deck: raw.prints_deck,
            overrides: overrides_of(alloc, matches)?,
        }),
    }
}

/// Where the deck comes from, if the words say so.
fn source_of<'a>(raw: &RawArguments<'a>) -> Option<Source<'a>>
    requires { passes is_seed (seen_raw raw.now).seed ≡ true }
    ensures value { option_map seen_source result ≡ source_of (seen_raw raw.now) }
    ensures seed { IfSome result HasSeed }
{
    match raw.input {
        Some(name) => Some(Source::File(name)),
        None => match raw.seed {
            Some(text) => Some(Source::Seed {
                seed: seed_of(text),
                large: raw.large,
            }),
            None => None,
        },
    }
}

fn seed_of(text: &str) -> u32
    requires { is_seed text.now ≡ true }
    ensures value { result ≡ digits_value 10 text.now }
    ensures most { result < 2 ^ 31 }
{
    number_of(text).unwrap_or(0) as u32
}

fn prefix_of<'a>(prefix: Option<&'a str>) -> &'a str
    ensures { result.now ≡ unwrap_or (option_map (λ t. t.now) prefix.entry) (codes "mesh") }
{
    match prefix {
        Some(prefix) => prefix,
        None => "mesh",
    }
}

fn workers_of(workers: Option<&str>) -> u32
    requires { passes is_workers (option_map (λ t. t.now) workers) ≡ true }
    ensures value { result ≡ option_map_or (digits_value 10) (option_map (λ t. t.now) workers.entry) 1 }
    ensures least { 1 ≤ result }
    ensures greatest { result ≤ 64 }
{
    match workers {
        Some(text) => number_of(text).unwrap_or(1) as u32,
        None => 1,
    }
}

fn overrides_of<'a>(alloc: Global, matches: &ArgMatches<'a>) -> Result<Vec<&'a str>, UsageFault>
    ensures ok { IfOk result (λ v. map (λ t. t.now) v.items ≡ overrides_by (rows_of (found_of matches.now))) }
    ensures err { IfErr result (λ e. e ≡ UsageFault.NoMemory) }
{
    match matches.get_strs("overrides") {
        Some(texts) => Ok(Vec::from_slice(alloc, texts)?),
        None => Ok(Vec::new(alloc)),
    }
}
