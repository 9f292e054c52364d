//! Parts of letters.

use cell_lists::Cells;

/// What the sender of a letter is to its receiver.
#[derive(Clone, Copy, Debug, PartialEq, Eq)]
pub enum How {
    /// Of the same level.
    Same,
    /// One level finer.
    Finer,
    /// One level coarser.
    Coarser,
}

/// A field's part of a letter.
#[derive(Debug, Drop)]
pub struct Part {
    /// The number of the field.
    pub field: u32,
    /// Its numbers: cells of a ghost letter, or sums of a flux letter.
    pub cells: Cells,
}
