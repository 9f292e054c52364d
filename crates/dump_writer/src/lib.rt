//! The texts of a run whose meshes are stored block by block: dumps, whole and in pieces, and the history.
//!
//! - [`DumpWalk`] gives the text of a dump piece by piece: the heading, a piece for each block, and the end.
//!   [`dump_text`] gives it whole. A block costs a step for each field that is allocated there and for each page of 32
//!   fields.
//! - [`push_rows_of`] adds the rows of a cycle to those of the history: a [`HistRow`] for each field. [`history_text`]
//!   gives the history from all its rows, and [`push_rows`] the lines of some.
//! - [`field_totals`] adds up the totals of each field.
#![tactic(auto)]

mod block;
mod dump;
mod history;
mod laws;
mod piece;
mod totals;

pub use dump::{DumpWalk, dump_text};
pub use history::{HistRow, HistRows, history_text, push_rows, push_rows_of};
pub use laws::{counting_law, rows_laws};
pub use mesh_num::NoMemory;
pub use totals::field_totals;
