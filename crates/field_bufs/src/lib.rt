//! Buffers: what a block holds of a field that is allocated there.
//!
//! A [`FieldBuf`] has the totals of a field in the cells of a block with its ghosts, and what passes the faces of
//! these cells to the right and to the left. Its stamp counts how often the block was changed in the cycle.
#![tactic(auto)]

mod buf;

pub use buf::{Bufs, FieldBuf};
pub use cell_lists::Cells;
