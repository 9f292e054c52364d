//! The computing tasks of a stage do the work of the machine.
//!
//! `stage_tasks` tells what becomes of the buffers that a task is lent by the kernels of a mesh. [`stage_works_law`]
//! says that this, given back, is the work on the lease in each cycle in which it may have been lent.
#![tactic(auto)]

mod laws;

pub use laws::stage_works_law;
