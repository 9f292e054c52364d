ghost use Rattle.std.specs.Prelude.{◌≡◌, option_map};
ghost use Rattle.clap.specs.Words.{rows_of, found_of, first_of};
ghost use Rattle.mesh_words.specs.Command.{is_set};
ghost use Rattle.mesh_words.specs.Numbers.{is_workers, is_seed, is_prefix};
ghost use Rattle.mesh_words.specs.RawArguments.{first_fault, first_bad_value, raw_of, passes};
ghost use Rattle.mesh_words.specs.Seen.{seen_raw};

use crate::fault::UsageFault;
use crate::numbers::{is_prefix, is_seed, is_workers};
use clap::ArgMatches;

/// The options and flags of the command line, not yet tested.
#[derive(Clone, Copy)]
pub struct RawArguments<'a> {
    pub input: Option<&'a str>,
    pub seed: Option<&'a str>,
    pub workers: Option<&'a str>,
    pub prefix: Option<&'a str>,
    pub large: bool,
    pub events: bool,
    pub prints_deck: bool,
}

/// The options and flags among what was read.
pub fn raw_of<'a>(matches: &ArgMatches<'a>) -> RawArguments<'a>
    ensures { seen_raw result ≡ raw_of (rows_of (found_of matches.now)) }
{
    RawArguments {
        input: value_of(matches, "input"),
        seed: value_of(matches, "generate"),
        workers: value_of(matches, "workers"),
        prefix: value_of(matches, "prefix"),
        large: is_set(matches, "large"),
        events: is_set(matches, "events"),
        prints_deck: is_set(matches, "print"),
    }
}

fn value_of<'a>(matches: &ArgMatches<'a>, id: &str) -> Option<&'a str>
    ensures { option_map (λ t. t.now) result ≡ first_of id.now (rows_of (found_of matches.now)) }
{
    matches.get_str(id)
}

fn is_set(matches: &ArgMatches<'_>, id: &str) -> bool
    ensures { result ≡ is_set id.now (rows_of (found_of matches.now)) }
{
    match value_of(matches, id) {
        Some(text) => text == "true",
        None => false,
    }
}

/// The first rule that refuses the arguments.
pub fn first_fault(raw: &RawArguments<'_>) -> Option<UsageFault>
    ensures { result ≡ first_fault (seen_raw raw.now) }
{
    if raw.input.is_none() && raw.seed.is_none() {
        Some(UsageFault::NoInput)
    } else if raw.input.is_some() && raw.seed.is_some() {
        Some(UsageFault::TwoInputs)
    } else if raw.large && raw.seed.is_none() {
        Some(UsageFault::Large)
    } else {
        first_bad_value(raw)
    }
}

fn first_bad_value(raw: &RawArguments<'_>) -> Option<UsageFault>
    ensures { result ≡ first_bad_value (seen_raw raw.now) }
{
    if !is_none_or_workers(raw.workers) {
        Some(UsageFault::Workers)
    } else if !is_none_or_seed(raw.seed) {
        Some(UsageFault::Seed)
    } else if !is_none_or_prefix(raw.prefix) {
        Some(UsageFault::Prefix)
    } else if raw.events {
        Some(UsageFault::NotBuilt)
    } else {
        None
    }
}

fn is_none_or_workers(text: Option<&str>) -> bool
    ensures { result ≡ passes is_workers (option_map (λ t. t.now) text.entry) }
{
    match text {
        Some(text) => is_workers(text),
        None => true,
    }
}

fn is_none_or_seed(text: Option<&str>) -> bool
    ensures { result ≡ passes is_seed (option_map (λ t. t.now) text.entry) }
{
    match text {
        Some(text) => is_seed(text),
        None => true,
    }
}

fn is_none_or_prefix(text: Option<&str>) -> bool
    ensures { result ≡ passes is_prefix (option_map (λ t. t.now) text.entry) }
{
    match text {
        Some(text) => is_prefix(text),
        None => true,
    }
}
