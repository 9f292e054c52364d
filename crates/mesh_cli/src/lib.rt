//! The top call: from the words of the command line to the files of a run, one printed line, and a status.
//!
//! - `mesh_plain` reads the words, the file that they name or the deck of their seed with the overrides,
//!   and the problem; it lists the deck or runs the problem, and prints how that ended. The first step
//!   that refuses decides.
#![tactic(auto)]

mod steps;
mod top_call;

pub use mesh_outcome::{Outcome, Status, report};
pub use top_call::mesh_plain;
