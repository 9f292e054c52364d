//! Restriction and prolongation: from fine cells to the coarse cells that they fill, and back.
//!
//! A coarse cell has the sum of the totals of the fine cells in it; its total is divided among them by shares that add
//! up to it again. [`restrict`] and [`prolong`] go over boxes that are whole lists; [`restrict_box`] and
//! [`prolong_box`] over boxes that lie in larger ones, as the layers of a block next to a side do. All go row by row
//! along x1.
#![tactic(auto)]

mod laws;
mod prolongation;
mod restriction;
mod row_sums;
mod shares;
mod sums;
mod whole_boxes;

pub use laws::restriction_laws;
pub use prolongation::prolong_box;
pub use restriction::restrict_box;
pub use whole_boxes::{factors, prolong, restrict};
