//! Rows of numbers that lie at equal steps in a list.
//!
//! The cells of a box of a block, the layers of its ghosts and the faces of an axis are all rows along x1 that lie at
//! equal steps: within a plane from row to row, and from plane to plane. [`write_rows`] and [`write_planes`] go over
//! such rows of one list and write those of another, by a [`RowMap`] that goes from slice to slice.
#![tactic(auto)]

mod laws;
mod planes;
mod row_map;
mod rows;

pub use laws::written_law;
pub use planes::{Planes, write_planes};
pub use row_map::{CopyRow, RowMap, ZeroRow};
pub use rows::{Rows, write_rows};
