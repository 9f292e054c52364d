//! Regions of a block, and boxes that are written row by row.
//!
//! [`BlockRegion`] is a box of the cells of a block with its ghosts, as the code needs it: the interior layers next to
//! a side, the ghosts beyond it, and the part of either beside which a block of half the size lies. [`write_box_rows`]
//! writes a box by what a [`BoxRows`] says of each of its rows; [`EvenRows`] is the one that writes one number
//! everywhere.
#![tactic(auto)]

mod box_rows;
mod even_rows;
mod parts;
mod regions;
mod row_starts;

pub use box_rows::{BoxRows, write_box_rows};
pub use even_rows::EvenRows;
pub use parts::beside_part;
pub use regions::{BlockRegion, cell_count, ghosts, in_block, inner_layers};
pub use row_starts::{row_start, whole};
