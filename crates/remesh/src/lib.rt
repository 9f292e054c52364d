//! Mesh states at the start of a run, and on each next tree.
//!
//! [`first_mesh`] makes the mesh state with which a problem's run starts. [`remap_alone`] carries a mesh state over to the next
//! tree: a leaf that stays is copied, a finer one gets shares, a coarser one sums, and a field is allocated where an old leaf in
//! its place had it. [`remap`] does the same in several threads. The work grows with allocated places and leaves.
#![tactic(auto)]

mod cells;
mod fields;
mod laws;
mod leaf;
mod leaf_stores;
mod opening;
mod parallel;
mod remapping;
mod sources;
mod stores;

pub use laws::remap_laws;
pub use mesh_num::NoMemory;
pub use opening::first_mesh;
pub use parallel::remap;
pub use remapping::remap_alone;
