//! The outside, as the program sees it: files that are read and written, and lines that are printed.
//!
//! - `Depot` reads input files and writes new ones, one at a time, in pieces. `Sink` prints.
//! - Both tell in contracts what was read, gained and printed, where they know it, and count their
//!   faults: a call answers `Failed` only where its own count rose.
//! - `MemDepot`, `SureDepot` and `MemSink` live in memory; `FileDepot` and `StdSink` adapt real
//!   files and standard output.
//! - `read_input` and `write_file` read and write one whole file over any depot.
#![tactic(auto)]

mod counting;
mod depot;
mod fail;
mod fault;
mod file_depot;
mod files;
mod gate;
mod mem_depot;
mod mem_read;
mod mem_sink;
mod open_input;
mod reading;
mod sink;
mod std_sink;
mod sure_depot;
mod writing;
mod written;

pub use depot::Depot;
pub use fail::{Fail, Fails};
pub use fault::OutFault;
pub use file_depot::FileDepot;
pub use files::{Bytes, File, Files, Gained, Name};
pub use gate::{Gate, MeetGate, OpenGate};
pub use item_lists::Items;
pub use mem_depot::MemDepot;
pub use mem_sink::MemSink;
pub use reading::read_input;
pub use sink::Sink;
pub use std_sink::StdSink;
pub use sure_depot::SureDepot;
pub use writing::write_file;
pub use written::Written;
