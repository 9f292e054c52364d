//! The law of readings.

ghost use Rattle.round_letters.specs.Readings.{ReadingsHaveDueLetters};

/// While a reading of a list is out, the letters that it reads are those of its round that are due to the list, each
/// once, and what the machine reads of each is what it holds.
pub fn reading_law<X, L, P>()
    ensures { ReadingsHaveDueLetters X L P }
{}
