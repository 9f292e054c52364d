//! Boxes of cells or faces in lists.
//!
//! The interior of a block, the ghosts next to a side, a part of a letter and the faces of an axis are boxes that lie
//! in larger boxes, x1 fastest. [`write_box`] goes over such a box of one list and writes one of the same extents in
//! another, row by row.
#![tactic(auto)]

mod boxes;

pub use boxes::{BoxIn, write_box};
pub use strided_rows::{CopyRow, RowMap, ZeroRow};
