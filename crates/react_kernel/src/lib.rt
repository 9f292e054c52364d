//! Reactions in cells and in blocks.
//!
//! A [`ReactKernel`] applies the reactions of a problem in a cell. [`react_block`] applies any kernel in all interior
//! cells of a block: it changes the buffers of the fields that are allocated there and makes those that the kernel
//! calls for.
#![tactic(auto)]

mod block;
mod cell;
mod fresh;
mod kernel;
mod laws;

pub use block::react_block;
pub use kernel::ReactKernel;
pub use laws::reactions_law;
