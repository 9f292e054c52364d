//! What a block is sent across a side is the mesh's region there, and the ghosts that it gives are the look.
//!
//! These laws tie the parts that [`ghost_buffers`] makes and unfills, and what [`bound_faces`] writes, to the rules of
//! the mesh. The functions carry laws: they have empty bodies, and their contracts are proved.
#![tactic(auto)]

mod laws;

pub use laws::{bound_laws, part_laws, seen_laws, stay_laws};
