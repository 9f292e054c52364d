// Inputs that come in pieces: a byte each, cut within line ends and in a comment, and cut before what is no text.
use input_file::{Deck, DeckFault, DeckReader, parse};
use std::alloc::Global;
use std::test::Fail as TestFail;
use worked_calls::ONE_BLOCK;

/// The deck with CR LF at its ends of lines, and a comment. It is cut between each CR and its LF, and in the comment.
const CUT_IN_LINE_ENDS: [&str; 15] = [
    "<parthenon/mesh>\r",
    "\nnx1 = 4 # o",
    "ne\r",
    "\nix1_bc = reflecting\r",
    "\nox1_bc = reflecting\r",
    "\n<parthenon/time>\r",
    "\nnlim = 2\r",
    "\n<whole>\r",
    "\ndenominator = 4\r",
    "\ndump_every = 1\r",
    "\n<field/a>\r",
    "\nv1 = 1\r",
    "\n<box/0>\r",
    "\nfield = a\r",
    "\nlo1 = 0\r\nhi1 = 0\r\namount = 8\r\n",
];

#[test]
fn a_deck_in_pieces_is_the_deck(rt: HostRuntime) -> Result<(), TestFail> {
    let alloc = rt.alloc();
    assert!(rt; is_one_block(alloc, in_bytes(alloc, ONE_BLOCK.as_bytes()))?);
    assert!(rt; is_one_block(alloc, in_lines(alloc, &CUT_IN_LINE_ENDS))?);
    Ok(())
}

// The second piece is one byte that begins no character, and it is told by its place in the whole input.
#[test]
fn what_is_no_text_is_told_by_its_place(rt: HostRuntime) -> Result<(), TestFail> {
    let fault = in_two(rt.alloc(), b"<a\n", &[255]).err();
    assert!(rt; fault == Some(DeckFault::NotText { place: 3 }));
    Ok(())
}

fn in_bytes(alloc: Global, bytes: &[u8]) -> Result<Deck, DeckFault> {
    let mut reader = DeckReader::new(alloc);
    for piece in bytes.chunks(1) {
        reader.feed(piece)?;
    }
    reader.finish()
}

fn in_lines(alloc: Global, pieces: &[&str]) -> Result<Deck, DeckFault> {
    let mut reader = DeckReader::new(alloc);
    for piece in pieces {
        reader.feed(piece.as_bytes())?;
    }
    reader.finish()
}

fn in_two(alloc: Global, first: &[u8], second: &[u8]) -> Result<Deck, DeckFault> {
    let mut reader = DeckReader::new(alloc);
    reader.feed(first)?;
    reader.feed(second)?;
    reader.finish()
}

fn is_one_block(alloc: Global, deck: Result<Deck, DeckFault>) -> Result<bool, DeckFault> {
    let deck = deck?;
    let whole = parse(alloc, ONE_BLOCK.as_bytes())?;
    Ok(deck.print()?.as_slice() == whole.print()?.as_slice())
}
