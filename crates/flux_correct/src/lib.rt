//! Flux correction between a finer and a coarser block.
//!
//! What passes a coarse face is what passes the finer faces that make it. The finer block sums these by [`gather`] for
//! the coarser block behind its side, which puts the sums in the place of its own by [`replace`].
#![tactic(auto)]

mod gathering;
mod replacing;
mod side_faces;

pub use cell_lists::{Cells, NoMemory};
pub use gathering::gather;
pub use replacing::replace;
