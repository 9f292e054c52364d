//! The protocol of a cycle in tables: which list's next task may be taken, and where each letter is.
//!
//! A list of tasks has three for each round, to send, to read and to compute, and a tail behind one barrier; even
//! rounds carry ghosts, odd ones flux sums. [`Tables`] keeps how many tasks each list has given, the seat that has its
//! next one, the letters on the wire and the mailboxes, whatever a letter carries. Contracts see a plain record of
//! lists (`specs/Tables.antt`); the set of ready lists and the counts stay inside. No event costs more for more lists
//! or for more events so far, but the one that opens the barrier, which tests each list once.
#![tactic(auto)]

mod letter;
mod list_state;
mod mailbox;
mod posting;
mod readiness;
mod ready_set;
mod tables;
mod wire;

pub use letter::{Letter, Post};
pub use list_state::{Due, ListState};
pub use tables::Tables;
