//! The names of the blocks of a kind.

ghost use Rattle.std.specs.Prelude.{◌≡◌, ◌<◌, ◌≤◌, ◌++◌, [], ◌∷◌, nat_eq, IfOk, IfErr, OnOk, Ok, Some, length, filter, map};
ghost use Rattle.std.specs.List.{starts_with};
ghost use Rattle.input_file.specs.Blocks.{name_at};
ghost use Rattle.deck_values.specs.Reading.{Gives};
ghost use Rattle.deck_values.specs.declared.fault.ProblemFault.TheVariants.{NoMemory as no_memory};
ghost use Rattle.deck_values.specs.BlockNames.{names_of, names_within};

use crate::fault::ProblemFault;
use input_file::Deck;
use package_fields::{Items, Name};
use std::alloc::Global;

/// The names of the blocks of a kind, in deck order.
///
/// Where there are more than `most`, Limit names the kind and `count`.
#[tactic(auto, unfolding(crate::specs::BlockNames::names_within))]
pub fn names_within(
    alloc: Global,
    deck: &Deck,
    kind: &str,
    most: usize,
) -> Result<Items<Name>, ProblemFault>
    ensures value { Gives result (names_within deck.now kind.now most) }
    ensures few { IfOk result (λ names. length names ≤ most) }
{
    let names = names_of(alloc, deck, kind)?;
    if names.len() <= most {
        return Ok(names);
    }
    let block = Name::copy_of(alloc, kind)?;
    let name = Name::copy_of(alloc, "count")?;
    Err(ProblemFault::Limit {
        block,
        name,
        value: names.len() as i128,
    })
}

/// The names of the blocks of a kind, in deck order.
#[tactic(auto, unfolding(crate::specs::BlockNames::names_of))]
pub fn names_of(alloc: Global, deck: &Deck, kind: &str) -> Result<Items<Name>, ProblemFault>
    ensures { Gives result (Ok (names_of deck.now kind.now)) }
{
    let prefix = format!(in alloc; "{kind}/")?;
    names_after(alloc, deck, prefix.as_str())
}

/// The names of the blocks that begin with a text, in deck order.
fn names_after(alloc: Global, deck: &Deck, prefix: &str) -> Result<Items<Name>, ProblemFault>
    ensures { Gives result (Ok (filter (λ name. starts_with nat_eq name prefix.now) (map (λ e. e.0) deck.now))) }
{
    let mut names = Items::new(alloc);
    for i in 0..deck.len() {
        push_if_begins(alloc, &mut names, block_name(deck, i), prefix)?;
    }
    Ok(names)
}

/// The name of a block that is there.
#[tactic(auto, using(crate::proofs::BlockNameLemmas::is_some_block))]
fn block_name(deck: &Deck, i: usize) -> &str
    requires { i < length deck.now }
    ensures { name_at deck.now i ≡ Some result.now }
{
    deck.block_name(i).unwrap()
}

/// Adds a name to some names where it begins with a text.
fn push_if_begins(
    alloc: Global,
    names: &mut Items<Name>,
    name: &str,
    prefix: &str,
) -> Result<(), ProblemFault>
    ensures ok { OnOk result (names.new ≡ names.old
        ++ filter (λ name. starts_with nat_eq name prefix.now) (name.now ∷ [])) }
    ensures fault { IfErr result (λ fault. fault ≡ no_memory) }
{
    if begins_with(name, prefix) {
        names.push(Name::copy_of(alloc, name)?)?;
    }
    Ok(())
}

#[tactic(auto, using(std::proofs::lemmas::Str::Pattern::starts_text))]
fn begins_with(text: &str, prefix: &str) -> bool
    ensures { result ≡ starts_with nat_eq text.now prefix.now }
{
    text.starts_with(prefix)
}
