//! Boxes of a block's cells or faces that are updated in place by the boxes beside them.
//!
//! What a cell of a block becomes in a stage hangs on its own total and on up to four numbers beside it: on what
//! passes its faces of an axis, or on the totals of its neighbours along it. [`update_box`] goes over a box of one
//! list, row by row along x1, by a [`RowRule`] that reads four other boxes.
#![tactic(auto)]

mod boxes;

pub use boxes::update_box;
pub use cell_boxes::BoxIn;
pub use row_updates::RowRule;
