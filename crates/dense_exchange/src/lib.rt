//! The ghost zones of all blocks of a mesh, for one field.
//!
//! [`exchange`] fills them from the totals of the mesh: each leaf gets its own cells, then beyond each of its sides
//! what the leaves behind it send, or what stands outside of the domain. What it fills is what the mesh shows there.
#![tactic(auto)]

mod field_mesh;
mod leaves;
mod parts;
mod sides;
mod writes;

pub use leaves::exchange;
