ghost use Rattle.std.specs.Prelude.{◌≡◌, Some, None, [], Err, IsTrue, IfErr, OnOk};
ghost use Rattle.input_file.specs.Texts.{is_block_name, is_key, is_value};
ghost use Rattle.input_file.specs.Blocks.{with_block};
ghost use Rattle.input_file.specs.Lines.{form_of, malformed};
ghost use Rattle.input_file.specs.Decks.{after_form, after_setting};
ghost use Rattle.input_file.specs.Answers.{Answers};

use crate::deck::Deck;
use crate::fault::DeckFault;
use crate::line::{LineForm, form_of};
use std::alloc::Global;
use std::marker::Model;

/// A deck while its lines are read.
#[derive(Drop)]
pub(crate) struct Reader {
    deck: Deck,
    // The index of the current block.
    current: Option<usize>,
}

impl Model for Reader {
    ghost use Rattle.std.specs.Prelude.{◌<◌, List, Option, IfSome, option_and_then, length};
    ghost use Rattle.input_file.specs.Texts.{Text};
    ghost use Rattle.input_file.specs.Blocks.{name_at};

    ghost Value = { List (Text × List (Text × Text)) × Option Text };

    ghost view = { λ r. (r.deck, option_and_then (name_at r.deck) r.current) };

    ghost invariant = { λ r. IfSome r.current (λ i. i < length r.deck) };
}

impl Reader {
    pub(crate) fn new(alloc: Global) -> Reader
        ensures { result ≡ ([], None) }
    {
        Reader {
            deck: Deck::new(alloc),
            current: None,
        }
    }

    /// Reads one line, which is given without the LF at its end.
    pub(crate) fn read_line(&mut self, number: u32, line: &str) -> Result<(), DeckFault>
        ensures answer { Answers (λ _. self.new) result (after_form number self.old (form_of line.now)) }
        ensures malformed { form_of line.now ≡ malformed → result ≡ Err (DeckFault.Syntax number) }
    {
        match form_of(line) {
            LineForm::Blank => Ok(()),
            LineForm::Header(name) => self.open(name),
            LineForm::Setting { key, value } => self.put(number, key, value),
            LineForm::Malformed => Err(DeckFault::Syntax { line: number }),
        }
    }

    fn open(&mut self, name: &str) -> Result<(), DeckFault>
        requires { IsTrue (is_block_name name.now) }
        ensures ok { OnOk result (self.new ≡ (with_block self.old.0 name.now, Some name.now)) }
        ensures err { IfErr result (λ e. e ≡ DeckFault.NoMemory) }
    {
        let index = self.deck.add_block(name)?;
        self.current = Some(index);
        Ok(())
    }

    fn put(&mut self, number: u32, key: &str, value: &str) -> Result<(), DeckFault>
        requires key { IsTrue (is_key key.now) }
        requires value { IsTrue (is_value value.now) }
        ensures { Answers (λ _. self.new) result (after_setting number self.old.0 self.old.1 key.now value.now) }
    {
        match self.current {
            None => Err(DeckFault::NoBlock { line: number }),
            Some(index) => {
                self.deck.set_in(index, key, value)?;
                Ok(())
            }
        }
    }

    pub(crate) fn into_deck(self) -> Deck
        ensures { result ≡ self.0 }
    {
        let Reader { deck, current: _ } = self;
        deck
    }
}
