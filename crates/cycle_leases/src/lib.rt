//! Leases: what a seat is lent for a task of a cycle, and the work that it gives back.
//!
//! Each partition has a list of tasks. A [`Lease`] has the buffers of the list's next task, and the letters that it
//! reads; a [`Finished`] has the same buffers after the task, and what else comes of it. Both are told by the state of
//! the cycle: what a lease has is what stands in the state that lent it, and what the work has is what the kernels of
//! the mesh make of that.
//!
//! | File of `specs/` | What a reader has to believe |
//! |---|---|
//! | `Buffers` | which buffer of a state a buffer of the code is, and its stamp |
//! | `Letters` | which letter of a state a letter of the code is |
//! | `Leases` | what a lease has |
//! | `Works` | what the work on a lease has |
#![tactic(auto)]

mod lease;

pub use lease::{Counts, Finished, Lease, Letters, Wishes};
