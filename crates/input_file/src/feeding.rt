ghost use Rattle.std.specs.Prelude.{◌≡◌, ◌<◌, ◌≤◌, ◌+◌, ◌++◌, ◌∷◌, [], ◌==◌, vec_len, length, position, IfOk, OnOk, IfSome, IfNone};
ghost use Rattle.input_file.specs.Unended.{IsUnended};
ghost use Rattle.input_file.specs.Pieces.{after_line, outcome_with, length_so_far, Continues, HasReadAll};
ghost use Rattle.input_file.specs.Answers.{Answers};

use crate::deck::Deck;
use crate::fault::{DeckFault, NoMemory};
use crate::found::Found;
use crate::reader::Reader;
use crate::so_far::SoFar;
use std::alloc::Global;

impl SoFar {
    pub(crate) fn new(alloc: Global) -> SoFar
        ensures { HasReadAll result [] }
    {
        SoFar {
            found: Found::Good(Reader::new(alloc)),
            number: 1,
            ended: 0,
            line: Vec::new(alloc),
        }
    }

    /// How many bytes were read.
    pub(crate) fn len(&self) -> usize
        ensures length { result ≡ length_so_far self.now }
        ensures short { result ≤ 1048576 }
    {
        self.ended + self.line.len()
    }

    /// Reads a piece that goes on where the last one ended.
    pub(crate) fn feed(self, piece: &[u8]) -> Result<SoFar, NoMemory>
        requires { length_so_far self + length piece.now ≤ 1048576 }
        ensures { IfOk result (λ new. Continues self piece.now new) }
    {
        let mut so_far = self;
        let mut rest = piece;
        while let Some((tail, after)) = split_line(rest) {
            so_far = so_far.end_line(tail)?;
            rest = after;
        }
        so_far.go_on(rest)
    }

    /// Reads the last bytes of the line that has not ended, and its LF.
    fn end_line(self, tail: &[u8]) -> Result<SoFar, NoMemory>
        requires short { length_so_far self + length tail.now + 1 ≤ 1048576 }
        requires unended { IsUnended tail.now }
        ensures { IfOk result (λ new. Continues self (tail.now ++ 10 ∷ []) new) }
    {
        let SoFar {
            found,
            number,
            ended,
            mut line,
        } = self;
        let length = line.len() + tail.len();
        let found = after_joined(found, number, ended, &mut line, tail)?;
        Ok(SoFar {
            found,
            number: number + 1,
            ended: ended + length + 1,
            line,
        })
    }

    /// Reads bytes of the line that has not ended.
    fn go_on(self, bytes: &[u8]) -> Result<SoFar, NoMemory>
        requires short { length_so_far self + length bytes.now ≤ 1048576 }
        requires unended { IsUnended bytes.now }
        ensures { IfOk result (λ new. Continues self bytes.now new) }
    {
        let SoFar {
            found,
            number,
            ended,
            mut line,
        } = self;
        line.extend_from_slice(bytes)?;
        Ok(SoFar {
            found,
            number,
            ended,
            line,
        })
    }

    /// The deck, once there are no more bytes.
    pub(crate) fn finish(self) -> Result<Deck, DeckFault>
        ensures { Answers (λ d. d) result (outcome_with self []) }
    {
        let SoFar {
            found,
            number,
            ended,
            line,
        } = self;
        found
            .after_line(number, ended, line.as_slice())?
            .into_deck()
    }
}

/// What was found after one more line, which is these two parts. The first is cleared.
fn after_joined(
    found: Found,
    number: u32,
    start: usize,
    front: &mut Vec<u8>,
    back: &[u8],
) -> Result<Found, NoMemory>
    requires { start + (vec_len front.old + length back.now) ≤ 1048576 }
    ensures found { IfOk result (λ new. new ≡ after_line number start found (front.old.items ++ back.now)) }
    ensures cleared { OnOk result (front.new.items ≡ []) }
{
    if front.is_empty() {
        return found.after_line(number, start, back);
    }
    front.extend_from_slice(back)?;
    let found = found.after_line(number, start, front.as_slice())?;
    front.clear();
    Ok(found)
}

/// The bytes before the first LF, and those behind it.
fn split_line(bytes: &[u8]) -> Option<(&[u8], &[u8])>
    ensures parts { IfSome result (λ x. bytes.now ≡ x.0.now ++ 10 ∷ x.1.now) }
    ensures length { IfSome result (λ x. length bytes.now ≡ length x.0.now + length x.1.now + 1) }
    ensures before { IfSome result (λ x. IsUnended x.0.now) }
    ensures none { IfNone result (IsUnended bytes.now) }
{
    match line_end(bytes) {
        Some(end) => Some((&bytes[..end], &bytes[end + 1..])),
        None => None,
    }
}

/// The place of the first LF.
fn line_end(bytes: &[u8]) -> Option<usize>
    ensures place { result ≡ position (λ b. b == 10) bytes.now }
    ensures within { IfSome result (λ i. i < length bytes.now) }
{
    bytes.iter().position(|b| *b == b'\n')
}
