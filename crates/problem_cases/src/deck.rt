use input_file::{Deck, DeckFault, parse};
use std::alloc::Global;

/// One block of four cells with reflecting faces, one field that moves upwards, and one box.
const SMALL_DECK: &str =
    "<parthenon/mesh>\nnx1 = 4\nix1_bc = reflecting\nox1_bc = reflecting\n<parthenon/time>\nnlim = 2\n<whole>\ndenominator = 4\ndump_every = 1\n<field/a>\nv1 = 1\n<box/0>\nfield = a\nlo1 = 0\nhi1 = 0\namount = 8\n";

/// The deck that a line changes, with its changes made.
pub fn changed(alloc: Global, line: &str) -> Result<Deck, DeckFault> {
    let (text, words) = match line.strip_prefix('+') {
        Some(words) => (SMALL_DECK, words),
        None => ("", line),
    };
    let mut deck = parse(alloc, text.as_bytes())?;
    for word in words.split(';') {
        change(alloc, &mut deck, word)?;
    }
    Ok(deck)
}

/// Makes one change, or the changes of a repeated word, whose count must be a number.
fn change(alloc: Global, deck: &mut Deck, word: &str) -> Result<(), DeckFault> {
    if word.is_empty() {
        return Ok(());
    }
    let Some((count, word)) = word.split_once('*') else {
        return deck.apply(word);
    };
    let Some((before, after)) = word.split_once('#') else {
        return deck.apply(word);
    };
    let Ok(count) = count.parse::<u32>() else {
        return Err(DeckFault::BadOverride);
    };
    for i in 0..count {
        let Ok(numbered) = format!(in alloc; "{before}{i}{after}") else {
            return Err(DeckFault::NoMemory);
        };
        deck.apply(numbered.as_str())?;
    }
    Ok(())
}
