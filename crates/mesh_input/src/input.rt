ghost use Rattle.std.specs.Prelude.{ℕ, List, ◌<◌, ◌^◌, map};
ghost use Rattle.deck_generator.specs.Generated.{generated};
ghost use Rattle.input_file.specs.Overrides.{overridden};
ghost use Rattle.input_file.specs.Pieces.{HasRead};
ghost use Rattle.problem_set.specs.SettingsOf.{settings_of};
ghost use Rattle.mesh_input.specs.Input.{accepted_input, input_with, deck_read, or_override_fault, overridden_by, problem_read};
ghost use Rattle.mesh_input.specs.Input.{Answers, seen_input};

use crate::fault::{InputFault, stop_of_deck, stop_of_override, stop_of_problem};
use deck_generator::generate;
use input_file::{Deck, DeckReader};
use problem_set::{Problem, read_problem};
use std::alloc::Global;

/// An accepted input: the deck with its overrides, and the problem that it gives.
#[derive(Drop)]
pub struct Input {
    pub deck: Deck,
    pub problem: Problem,
}

/// The input that the bytes of a file and the overrides give. The first fault is answered: that of
/// the bytes, then that of the first word that is no override, then that of the problem.
pub fn accept_bytes(alloc: Global, bytes: &[u8], overrides: &[&str]) -> Result<Input, InputFault>
    ensures { Answers seen_input result (accepted_input bytes.now (map (λ t. t.now) overrides.now)) }
{
    let mut reader = DeckReader::new(alloc);
    match reader.feed(bytes) {
        Ok(()) => accept_read(alloc, reader, overrides),
        Err(_) => Err(InputFault::NoMemory),
    }
}

/// The input that the deck of a seed and the overrides give: the large one, or the small one.
pub fn accept_seed(
    alloc: Global,
    seed: u32,
    large: bool,
    overrides: &[&str],
) -> Result<Input, InputFault>
    requires { seed < 2 ^ 31 }
    ensures { Answers seen_input result (input_with (generated seed large) (map (λ t. t.now) overrides.now)) }
{
    match generate(alloc, seed, large) {
        Ok(deck) => accept_deck(alloc, deck, overrides),
        Err(_) => Err(InputFault::NoMemory),
    }
}

// The input that the bytes that a reader has read and the overrides give.
pub(crate) fn accept_read(
    alloc: Global,
    reader: DeckReader,
    overrides: &[&str],
) -> Result<Input, InputFault>
    ensures { (bytes : List ℕ) → HasRead reader bytes
        → Answers seen_input result (accepted_input bytes (map (λ t. t.now) overrides.now)) }
{
    let deck = finish_deck(reader)?;
    accept_deck(alloc, deck, overrides)
}

// The input that a deck and the overrides give.
fn accept_deck(alloc: Global, deck: Deck, overrides: &[&str]) -> Result<Input, InputFault>
    ensures { Answers seen_input result (input_with deck (map (λ t. t.now) overrides.now)) }
{
    let mut deck = deck;
    apply_all(&mut deck, overrides)?;
    let problem = problem_of(alloc, &deck)?;
    Ok(Input { deck, problem })
}

// The deck of the bytes that a reader has read.
fn finish_deck(reader: DeckReader) -> Result<Deck, InputFault>
    ensures { (bytes : List ℕ) → HasRead reader bytes → Answers (λ d. d) result (deck_read bytes) }
{
    match reader.finish() {
        Ok(deck) => Ok(deck),
        Err(fault) => Err(stop_of_deck(fault)),
    }
}

// Sets the overrides in their order.
fn apply_all(deck: &mut Deck, overrides: &[&str]) -> Result<(), InputFault>
    ensures { Answers (λ _. deck.new) result (overridden_by 1 deck.old (map (λ t. t.now) overrides.now)) }
{
    for (i, word) in overrides.iter().enumerate() {
        apply_one(deck, i + 1, word)?;
    }
    Ok(())
}

// Sets the override of this number.
fn apply_one(deck: &mut Deck, number: usize, word: &str) -> Result<(), InputFault>
    ensures { Answers (λ _. deck.new) result (or_override_fault number (overridden deck.old word.now)) }
{
    match deck.apply(word) {
        Ok(()) => Ok(()),
        Err(fault) => Err(stop_of_override(number, fault)),
    }
}

// The problem of a deck.
fn problem_of(alloc: Global, deck: &Deck) -> Result<Problem, InputFault>
    ensures { Answers settings_of result (problem_read deck.now) }
{
    match read_problem(alloc, deck) {
        Ok(problem) => Ok(problem),
        Err(fault) => Err(stop_of_problem(fault)),
    }
}
