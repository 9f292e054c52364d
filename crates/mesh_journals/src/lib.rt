//! The journals of a cycle on a mesh: whatever the order of events, each ends as the rules say.
//!
//! [`cycle_events`] says what a journal is and what it keeps, for any kernels; [`masked_cycles`] says that the run of a
//! mesh's kernels is the cycle of the rules. [`mesh_journal_law`] puts the two together: for each mesh state that is
//! fit, and each journal of a cycle from it.
//!
//! `specs/Cycles.antt` has the events' view of a cycle on a mesh (`on_mesh`) and the number of its events,
//! `specs/Laws.antt` the laws.
#![tactic(auto)]

mod laws;

pub use laws::mesh_journal_law;
