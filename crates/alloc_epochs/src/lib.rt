//! Shelves: which fields are allocated on the blocks of a partition, under which keys, and how often
//! that changed.
//!
//! A [`Shelf`] finds the key of a place in one step and lists the places of a kind by block, then
//! field. Its epoch counts each place that came or went, so that a list that was made at an epoch is
//! right as long as the epoch is the same. Listing takes a step for each page of 32 fields of a block
//! and for each field of a page that has a key; memory goes to pages in use, and to eight empty pages
//! a block at most.
#![tactic(auto)]

mod finding;
mod listing;
mod page;
mod row;
mod shelf;

pub use finding::KeyedField;
pub use shelf::Shelf;
