//! Worked words and decks: which are refused, with their lines, which are listed, and decks that come in pieces.
#![tactic(auto)]

#[cfg(test)]
mod lines;
#[cfg(test)]
mod listing;
#[cfg(test)]
mod pieces;
#[cfg(test)]
mod words;
