//! What is stored of a mesh during a cycle: buffers that are lent to tasks and come back, and the places that are kept.
//!
//! A [`CycleStore`] is a mesh state with the set of places that the cycle keeps: a field that is allocated on a block is
//! not yet kept there where only a small amount came. No call costs work that grows with all blocks or fields, or with
//! what came before: each costs what it is about.
//!
//! Calls that need memory come in two steps. The first makes room, or the buffers, and may be refused; the second cannot
//! fail: [`CycleStore::reserve`] before [`CycleStore::give`], [`CycleStore::coming`] before [`CycleStore::arrive`].
//!
//! | File of `specs/` | What it says |
//! |---|---|
//! | `Stores` | which places are kept; what stands where once buffers were lent |
//! | `Gives` | what stands where once a task was given, and what has to hold before |
//! | `Arrivals` | the buffers that the coming of a letter makes |
//! | `Openings` | what stands where as a cycle begins |
#![tactic(auto)]

mod arriving;
mod fresh;
mod giving;
mod keeping;
mod left;
mod lending;
mod opening;
mod store;

pub use left::Left;
pub use store::CycleStore;
