ghost use Rattle.std.specs.Prelude.{◌≡◌, ◌≢◌, ℕ, ◌+◌, ◌<◌, ◌++◌, List, [], Ok, Err, length, IsOk, IsErr, IfOk, OnOk, OnErr};
ghost use Rattle.input_file.specs.Decks.{deck, greatest_length};
ghost use Rattle.input_file.specs.Answers.{Answers};
ghost use Rattle.input_file.specs.Pieces.{HasRead, HasReadAll, StateHasRead, IsRefused};
ghost use Rattle.input_file.specs.declared.pieces.State.TheVariants.{Refused};

use crate::deck::Deck;
use crate::fault::{DeckFault, NoMemory};
use crate::so_far::SoFar;
use std::alloc::Global;
use std::mem;

/// The most bytes that a deck is read from.
const GREATEST_LENGTH: usize = 1_048_576;

/// Reads a deck from the bytes of an input file, which come in pieces of any lengths.
///
/// It keeps the deck so far, the line that has not ended, and the first fault. Of more than 1,048,576 bytes it keeps
/// nothing. After a piece that was refused for want of memory every later call is refused as well.
#[derive(Drop)]
pub struct DeckReader {
    state: State,
}

#[derive(Drop)]
enum State {
    Reading(SoFar),
    TooLong,
    Refused,
}

impl DeckReader {
    /// A reader that has read nothing.
    pub fn new(alloc: Global) -> DeckReader
        ensures { HasRead result [] }
    {
        DeckReader {
            state: State::Reading(SoFar::new(alloc)),
        }
    }

    /// Reads the next piece, which may be empty, and may end anywhere.
    pub fn feed(&mut self, piece: &[u8]) -> Result<(), NoMemory>
        ensures ok { OnOk result ((bytes : List ℕ) → HasRead self.old bytes → HasRead self.new (bytes ++ piece.now)) }
        ensures err { OnErr result (IsRefused self.new) }
        ensures refused { IsRefused self.old → IsErr result }
        ensures too_long { (bytes : List ℕ) → HasRead self.old bytes
            → greatest_length < length bytes + length piece.now → IsOk result }
    {
        let state = mem::replace(&mut self.state, State::Refused);
        self.state = after_piece(state, piece)?;
        Ok(())
    }

    /// The deck of the bytes that were read, or their first fault.
    ///
    /// Too many bytes are `TooLong`, bytes that are no UTF-8 `NotText`; then the first bad line decides, by `Syntax` or
    /// `NoBlock`. `BadOverride` does not come.
    pub fn finish(self) -> Result<Deck, DeckFault>
        ensures answer { (bytes : List ℕ) → HasRead self bytes → Answers (λ d. d) result (deck bytes) }
        ensures too_long { (bytes : List ℕ) → HasRead self bytes → greatest_length < length bytes
            → result ≡ Err DeckFault.TooLong }
        ensures refused { IsRefused self → result ≡ Err DeckFault.NoMemory }
    {
        match self.state {
            State::Reading(so_far) => so_far.finish(),
            State::TooLong => Err(DeckFault::TooLong),
            State::Refused => Err(DeckFault::NoMemory),
        }
    }
}

fn after_piece(state: State, piece: &[u8]) -> Result<State, NoMemory>
    ensures ok { IfOk result (λ new. (bytes : List ℕ) → StateHasRead state bytes
        → StateHasRead new (bytes ++ piece.now)) }
    ensures refused { state ≡ Refused → IsErr result }
    ensures too_long { (bytes : List ℕ) → StateHasRead state bytes
        → greatest_length < length bytes + length piece.now → result ≡ Ok State.TooLong }
{
    match state {
        State::Reading(so_far) => after_piece_of(so_far, piece),
        State::TooLong => Ok(State::TooLong),
        State::Refused => Err(NoMemory),
    }
}

fn after_piece_of(so_far: SoFar, piece: &[u8]) -> Result<State, NoMemory>
    ensures ok { IfOk result (λ new. (bytes : List ℕ) → HasReadAll so_far bytes
        → StateHasRead new (bytes ++ piece.now)) }
    ensures too_long { (bytes : List ℕ) → HasReadAll so_far bytes
        → greatest_length < length bytes + length piece.now → result ≡ Ok State.TooLong }
{
    if piece.len() > GREATEST_LENGTH - so_far.len() {
        return Ok(State::TooLong);
    }
    Ok(State::Reading(so_far.feed(piece)?))
}

/// Reads a deck from the bytes of an input file.
///
/// Too many bytes are `TooLong`, bytes that are no UTF-8 `NotText`; then the first bad line decides, by `Syntax` or
/// `NoBlock`. `BadOverride` does not come.
pub fn parse(alloc: Global, bytes: &[u8]) -> Result<Deck, DeckFault>
    ensures answer { Answers (λ d. d) result (deck bytes.now) }
    ensures no_override { result ≢ Err DeckFault.BadOverride }
    ensures too_long { greatest_length < length bytes.now → result ≡ Err DeckFault.TooLong }
{
    let mut reader = DeckReader::new(alloc);
    reader.feed(bytes)?;
    reader.finish()
}
