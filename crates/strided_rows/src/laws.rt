//! What a list of written rows reads as.

ghost use Rattle.strided_rows.specs.Written.{PlanesAreWritten};

/// Each number of the rows that were written is what the other list's row gives, and each number off them is as it was.
pub fn written_law()
    ensures { PlanesAreWritten }
{}
