ghost use Rattle.std.specs.Prelude.{◌≡◌, ◌+◌, ◌≤◌, length, IfOk};
ghost use Rattle.input_file.specs.Pieces.{after_text, after_no_text, after_line, found_deck, found_of};
ghost use Rattle.input_file.specs.Lines.{form_of};
ghost use Rattle.input_file.specs.Decks.{after_form};

use crate::deck::Deck;
use crate::fault::{DeckFault, NoMemory};
use crate::reader::Reader;

/// What was found in the lines that have ended.
#[derive(Drop)]
pub(crate) enum Found {
    /// All are good.
    Good(Reader),
    /// The first bad line has this fault.
    Bad(DeckFault),
    /// No character begins at this byte.
    Stopped(u64),
}

impl Found {
    /// What was found after one more line, which has this number and begins at this byte.
    pub(crate) fn after_line(
        self,
        number: u32,
        start: usize,
        line: &[u8],
    ) -> Result<Found, NoMemory>
        requires { start + length line.now ≤ 1048576 }
        ensures { IfOk result (λ found. found ≡ after_line number start self line.now) }
    {
        match str::from_utf8(line) {
            Ok(text) => self.after_text(number, text),
            Err(fault) => Ok(self.after_no_text((start + fault.valid_up_to()) as u64)),
        }
    }

    fn after_text(self, number: u32, text: &str) -> Result<Found, NoMemory>
        ensures { IfOk result (λ found. found ≡ after_text number self text.now) }
    {
        match self {
            Found::Good(reader) => after_text_of(reader, number, text),
            Found::Bad(fault) => Ok(Found::Bad(fault)),
            Found::Stopped(place) => Ok(Found::Stopped(place)),
        }
    }

    fn after_no_text(self, place: u64) -> Found
        ensures { result ≡ after_no_text place self }
    {
        match self {
            Found::Stopped(first) => Found::Stopped(first),
            _ => Found::Stopped(place),
        }
    }

    /// The deck, once there are no more lines.
    pub(crate) fn into_deck(self) -> Result<Deck, DeckFault>
        ensures { result ≡ found_deck self }
    {
        match self {
            Found::Good(reader) => Ok(reader.into_deck()),
            Found::Bad(fault) => Err(fault),
            Found::Stopped(place) => Err(DeckFault::NotText { place }),
        }
    }
}

fn after_text_of(reader: Reader, number: u32, text: &str) -> Result<Found, NoMemory>
    ensures { IfOk result (λ found. found ≡ found_of (after_form number reader (form_of text.now))) }
{
    let mut reader = reader;
    match reader.read_line(number, text) {
        Ok(()) => Ok(Found::Good(reader)),
        Err(DeckFault::NoMemory) => Err(NoMemory),
        Err(fault) => Ok(Found::Bad(fault)),
    }
}
