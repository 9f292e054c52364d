//! Lists as contracts see them.
//!
//! A list of files, of fields or of buffers is an [`Items`]: contracts see its items in order, and the room that it
//! keeps never shows.
#![tactic(auto)]

mod items;

pub use items::Items;
