ghost use Rattle.std.specs.Prelude.{◌≡◌, ◌≤◌, IfOk, Option, Some, None};
ghost use Rattle.std.specs.Option.{option_copied};
ghost use Rattle.input_file.specs.Blocks.{entry};
ghost use Rattle.deck_values.specs.Reading.{Answers, Makes};
ghost use Rattle.deck_values.specs.BlockReader.{value_at, number, number_or_one};
ghost use Rattle.deck_values.specs.Numbers.{number_of, signed_of};
ghost use Rattle.deck_values.specs.declared.fault.ProblemFault.TheVariants.{Missing, BadValue, Limit};

use crate::fault::ProblemFault;
use crate::numbers::{number_of, signed_of};
use input_file::Deck;
use package_fields::Name;
use std::alloc::Global;

/// One block of a deck, to be read key by key.
#[derive(Clone, Copy)]
pub struct BlockReader<'a> {
    pub alloc: Global,
    pub deck: &'a Deck,
    pub block: &'a str,
}

impl<'a> BlockReader<'a> {
    /// The reader of the block of a deck with a name, which need not be there.
    pub fn new(alloc: Global, deck: &'a Deck, block: &'a str) -> BlockReader<'a>
        ensures deck { result.deck.now ≡ deck.now }
        ensures block { result.block.now ≡ block.now }
    {
        BlockReader { alloc, deck, block }
    }

    /// The value at a key.
    pub fn text(&self, key: &str) -> Option<&'a str>
        ensures { option_copied result ≡ entry self.now.deck.now self.now.block.now key.now }
    {
        self.deck.get(self.block, key)
    }

    /// The fault of a key that is required and absent.
    pub fn missing(&self, key: &str) -> ProblemFault
        ensures { Makes result (Missing self.now.block.now key.now) }
    {
        match names(self.alloc, self.block, key) {
            Ok((block, name)) => ProblemFault::Missing { block, name },
            Err(_) => ProblemFault::NoMemory,
        }
    }

    /// The fault of a value that is not of its form, or breaks a rule between keys.
    pub fn bad_value(&self, key: &str) -> ProblemFault
        ensures { Makes result (BadValue self.now.block.now key.now) }
    {
        match names(self.alloc, self.block, key) {
            Ok((block, name)) => ProblemFault::BadValue { block, name },
            Err(_) => ProblemFault::NoMemory,
        }
    }

    /// The fault of a number that is outside of its range.
    pub fn limit(&self, key: &str, value: i128) -> ProblemFault
        ensures { Makes result (Limit self.now.block.now key.now value) }
    {
        match names(self.alloc, self.block, key) {
            Ok((block, name)) => ProblemFault::Limit { block, name, value },
            Err(_) => ProblemFault::NoMemory,
        }
    }

    /// The number at a key, or its default where the key is absent.
    fn number_at(&self, key: &str, default: Option<u64>) -> Result<u64, ProblemFault>
        ensures { Answers (λ n. n) result (value_at number_of self.now.deck.now self.now.block.now key.now default) }
    {
        match self.text(key) {
            Some(text) => match number_of(text) {
                Some(n) => Ok(n),
                None => Err(self.bad_value(key)),
            },
            None => match default {
                Some(n) => Ok(n),
                None => Err(self.missing(key)),
            },
        }
    }

    /// The signed number at a key, or its default where the key is absent.
    pub fn signed_at(&self, key: &str, default: i128) -> Result<i128, ProblemFault>
        ensures { Answers (λ z. z) result (value_at signed_of self.now.deck.now self.now.block.now key.now
            (Some default)) }
    {
        match self.text(key) {
            Some(text) => match signed_of(text) {
                Some(z) => Ok(z),
                None => Err(self.bad_value(key)),
            },
            None => Ok(default),
        }
    }

    /// The number at a key, or its default where the key is absent: from `least` to `greatest`.
    #[tactic(auto, unfolding(crate::specs::BlockReader::number))]
    pub fn number(
        &self,
        key: &str,
        least: u64,
        greatest: u64,
        default: Option<u64>,
    ) -> Result<u64, ProblemFault>
        ensures value { Answers (λ n. n) result
            (number self.now.deck.now self.now.block.now key.now least greatest default) }
        ensures least { IfOk result (λ n. least ≤ n) }
        ensures greatest { IfOk result (λ n. n ≤ greatest) }
    {
        let n = self.number_at(key, default)?;
        if least <= n && n <= greatest {
            Ok(n)
        } else {
            Err(self.limit(key, i128::from(n)))
        }
    }

    /// The number at a key, or its default where the key is absent: 1, or from `least` to `greatest`.
    #[tactic(auto, unfolding(crate::specs::BlockReader::number_or_one))]
    pub fn number_or_one(
        &self,
        key: &str,
        least: u64,
        greatest: u64,
        default: Option<u64>,
    ) -> Result<u64, ProblemFault>
        requires some { 1 ≤ least }
        requires most { 1 ≤ greatest }
        ensures value { Answers (λ n. n) result
            (number_or_one self.now.deck.now self.now.block.now key.now least greatest default) }
        ensures least { IfOk result (λ n. 1 ≤ n) }
        ensures more { IfOk result (λ n. 2 ≤ n → least ≤ n) }
        ensures greatest { IfOk result (λ n. n ≤ greatest) }
    {
        let n = self.number_at(key, default)?;
        if n == 1 || (least <= n && n <= greatest) {
            Ok(n)
        } else {
            Err(self.limit(key, i128::from(n)))
        }
    }
}

/// Copies of the names of a block and a key.
fn names(alloc: Global, block: &str, key: &str) -> Result<(Name, Name), package_fields::NoMemory>
    ensures { IfOk result (λ names. names ≡ (block.now, key.now)) }
{
    Ok((Name::copy_of(alloc, block)?, Name::copy_of(alloc, key)?))
}
