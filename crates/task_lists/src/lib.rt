//! Task lists: which tasks are ready, and the tasks of a cycle.
//!
//! A [`TaskList`] has tasks of any kind, each after others of the list. A [`Collection`] has the
//! tasks of a cycle on all partitions, in two regions. Contracts see it by the same rule: a task is
//! ready where those that it is after are complete and its region has started.
#![tactic(auto)]

mod cycle;
mod fault;
mod list;
mod task;

pub use cycle::Collection;
pub use fault::{NoMemory, TaskFault};
pub use list::TaskList;
pub use task::{TaskId, TaskKind, kind_of};
