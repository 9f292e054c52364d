//! The tasks after the reaction: tags, and the check.
//!
//! [`wishes_of`] asks what each block wishes, by what its buffers hold. [`check_bufs`] counts at how many checks in a row
//! a field was idle, and frees what was so often enough. What they leave is told by the kernels of the cycle's mesh.
#![tactic(auto)]

mod blocks;
mod checks;
mod wishes;

pub use blocks::end_of;
pub use checks::{CheckedBufs, check_bufs};
pub use wishes::wishes_of;
