//! The letters that a reading task is handed: exactly those that are due to its list.
//!
//! In a cycle by tasks and letters (`cycle_rounds`) a list takes a reading only once all letters of the round that are
//! due to it were delivered. Here that is told of the letters themselves. The function carries laws: it has an empty
//! body, and its contract is proved.
//!
//! | File of `specs/` | What a reader has to believe |
//! |---|---|
//! | `Readings` | what letters a reading has |
#![tactic(auto)]

mod laws;

pub use laws::reading_law;
