//! Where blocks lie: locations on the refinement levels of a mesh, their parents, children and neighbours, what
//! lies across a side, and the Morton key that orders them.
//!
//! One text serves meshes with one, two and three axes in use. An axis that is not in use has one root block and the
//! coordinate 0 at every level.
#![tactic(auto)]

mod around;
mod key;
mod laws;
mod locations;
mod space;

pub use around::{Around, neighbours};
pub use key::key_of;
pub use laws::neighbour_laws;
pub use locations::{across, child, parent};
pub use space::{Loc, Shape, Side};
