ghost use Rattle.std.specs.Prelude.{◌≡◌, None, Err, option_map, IfSome, IsTrue, OnErr};
ghost use Rattle.input_file.specs.Texts.{is_block_name, is_key, is_value};
ghost use Rattle.input_file.specs.Overrides.{override_of, override_around, override_if_formed, overridden};
ghost use Rattle.input_file.specs.SeenOverride.{seen_override};
ghost use Rattle.input_file.specs.Answers.{Answers};

use crate::deck::Deck;
use crate::fault::DeckFault;
use crate::text::{is_block_name, is_key, is_value, trim};

/// The parts of an override word.
#[derive(Drop)]
struct OverrideWord<'a> {
    block: &'a str,
    key: &'a str,
    value: &'a str,
}

impl Deck {
    /// Sets a key by an override word `block/key=value`; a block or a key that is not there is added at the end.
    ///
    /// A word of another form is `BadOverride`. After a refusal the deck is as before.
    pub fn apply(&mut self, word: &str) -> Result<(), DeckFault>
        ensures answer { Answers (λ _. self.new) result (overridden self.old word.now) }
        ensures malformed { override_of word.now ≡ None → result ≡ Err DeckFault.BadOverride }
        ensures unchanged { OnErr result (self.new ≡ self.old) }
    {
        match override_of(word) {
            Some(parts) => {
                self.set(parts.block, parts.key, parts.value)?;
                Ok(())
            }
            None => Err(DeckFault::BadOverride),
        }
    }
}

fn override_of(word: &str) -> Option<OverrideWord<'_>>
    ensures value { option_map seen_override result ≡ override_of word.now }
    ensures block { IfSome result (λ o. IsTrue (is_block_name o.block.now)) }
    ensures key { IfSome result (λ o. IsTrue (is_key o.key.now)) }
    ensures formed_value { IfSome result (λ o. IsTrue (is_value o.value.now)) }
{
    match word.split_once('=') {
        Some((path, value)) => override_around(path, value),
        None => None,
    }
}

fn override_around<'a>(path: &'a str, value: &'a str) -> Option<OverrideWord<'a>>
    ensures value { option_map seen_override result ≡ override_around path.now value.now }
    ensures block { IfSome result (λ o. IsTrue (is_block_name o.block.now)) }
    ensures key { IfSome result (λ o. IsTrue (is_key o.key.now)) }
    ensures formed_value { IfSome result (λ o. IsTrue (is_value o.value.now)) }
{
    match path.rsplit_once('/') {
        Some((block, key)) => override_if_formed(trim(block), trim(key), trim(value)),
        None => None,
    }
}

fn override_if_formed<'a>(block: &'a str, key: &'a str, value: &'a str) -> Option<OverrideWord<'a>>
    ensures value { option_map seen_override result ≡ override_if_formed block.now key.now value.now }
    ensures block { IfSome result (λ o. IsTrue (is_block_name o.block.now)) }
    ensures key { IfSome result (λ o. IsTrue (is_key o.key.now)) }
    ensures formed_value { IfSome result (λ o. IsTrue (is_value o.value.now)) }
{
    if is_block_name(block) && is_key(key) && is_value(value) {
        Some(OverrideWord { block, key, value })
    } else {
        None
    }
}
