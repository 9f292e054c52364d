//! The input file: a deck of blocks, each a name and a list of keys with values.
//!
//! `parse` reads a deck from the bytes of a file, `DeckReader` from pieces of them, `Deck::apply` sets one key by an
//! override word `block/key=value`, and `Deck::print` writes the deck as it is read again. Contracts see a deck as a
//! list of blocks, each a name and a list of keys with their values.
#![tactic(auto)]

mod deck;
mod fault;
mod feeding;
mod found;
mod keys;
mod line;
mod map;
mod overrides;
mod pieces;
mod print;
mod reader;
mod so_far;
#[cfg(test)]
mod tests;
mod text;

pub use deck::Deck;
pub use fault::{DeckFault, NoMemory};
pub use pieces::{DeckReader, parse};
