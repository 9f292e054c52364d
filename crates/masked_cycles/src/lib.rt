//! The masked serial run of a mesh's kernels is the cycle of the rules, and so every legal list of events over its
//! blocks comes to the end that the rules name.
//!
//! [`sparse_rounds`] proves for any kernels that every legal list of events ends as their masked serial run does, and
//! [`cycle_kernels`] names the kernels of a mesh. Here the two meet `mesh_rules`: stage by stage, after the reaction
//! and after the check, the run has on each leaf and for each field the totals, the mask and the sums of the cycle.
//! The functions carry laws: they have empty bodies, and their contracts are proved.
//!
//! | File of `specs/` | What a reader has to believe |
//! |---|---|
//! | `Cycles` | a cycle (`Cycle`), the run of its kernels, and where the run and the rules agree |
//! | `Wishes` | the tags and counters that follow from what blocks wish |
//! | `States` | what buffers and letters have after any legal list of events |
//! | `Ends` | what they have at the end of every complete one |
//!
//! Sums are kept by block and field; of a number that no leaf or no field has nothing is said.
#![tactic(auto)]

mod laws;

pub use laws::{cycle_law, ended_law, staged_law, start_law, state_law, sum_law, wish_law};
