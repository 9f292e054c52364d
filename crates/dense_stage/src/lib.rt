//! A stage of one field on a whole mesh in lists.
//!
//! [`advance`] takes the lists of the leaves, whose ghosts are filled, through the kernels of a block: what passes the
//! faces of each leaf, flux correction where finer leaves stand behind a side, what flows through the faces of the
//! domain, and the update. Where no finer leaf stands behind any side, all this is done leaf by leaf.
#![tactic(auto)]

mod corrections;
mod domain;
mod each_leaf;
mod face_lists;
mod own_fluxes;
mod stage;
mod staging;

pub use face_lists::FaceLists;
pub use stage::{Advanced, advance};
