//! The texts of a run: its dumps and its history, as bytes, and the names of their files.
//!
//! - [`DumpWalk`] gives the text of a dump piece by piece: the heading, a piece for each block, and the end. [`dump_text`]
//!   gives it whole, and [`push_block`] gives one block. [`push_place`] and [`push_field`] give the lines of a block one by one.
//! - [`push_history_lines`] gives the lines of a cycle in the history, and [`history_text`] the history from all its lines.
//! - [`dump_file_name`], [`history_file_name`] and [`is_dumped`] say which files there are.
//! - [`push_named`], [`push_line`] and the like append words, numbers and lines, for the texts of the crates above too.
//!
//! Functions whose names begin with `push` append to a text. Where they are refused for want of memory, it may end
//! with a part of what was to be appended.
#![tactic(auto)]

mod block;
mod dump;
mod file_names;
mod heading;
mod history;
mod pieces;

pub use block::{is_zero, push_block, push_field, push_place};
pub use dump::{DumpWalk, dump_text};
pub use file_names::{dump_file_name, history_file_name, is_dumped};
pub use heading::push_heading;
pub use history::{
    HistoryEntry, history_text, push_field_row, push_history_heading, push_history_line,
    push_history_lines,
};
pub use mesh_num::NoMemory;
pub use pieces::{
    push_byte, push_bytes, push_end, push_line, push_named, push_named_line, push_next, push_three,
};
