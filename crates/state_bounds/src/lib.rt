//! What the buffers of a cycle on a mesh keep to, after whatever events: so the kernels of blocks may be called on them.
//!
//! A kernel asks that its totals are small, that no cell pays more than it has, that nothing stands in the corners of
//! the ghosts. Here that is proved of every state that a journal of a cycle leads to. The functions carry laws: they
//! have empty bodies, and their contracts are proved.
//!
//! | File of `specs/` | What a reader has to believe |
//! |---|---|
//! | `Bounds` | what holds of the buffers of a stage, and of the cells that react |
//! | `Corners` | what stands in the corners of ghosts |
//! | `Counts` | how high idle counts come |
#![tactic(auto)]

mod laws;

pub use laws::{bound_law, corner_law, idle_law};
