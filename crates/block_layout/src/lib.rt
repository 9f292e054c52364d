//! How the cells and the faces of a block lie in lists.
//!
//! The totals of a field on a block stand in one list, x1 fastest, with two layers of ghosts at each side of each axis
//! in use. What passes the faces stands in two lists, one to the right and one to the left, of the faces of x1, then
//! of x2, then of x3. One text serves blocks with one, two and three axes in use: an axis that is not in use has one
//! cell and no ghosts.
#![tactic(auto)]

mod laws;
mod layout;

pub use laws::{face_laws, index_laws, region_laws};
pub use layout::Layout;
