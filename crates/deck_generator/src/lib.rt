//! Decks made of a number: a mesh that wraps along x1 and is closed along x2, a pool of sparse fields that
//! move, and for each field a small box of it, at a place that comes of the number.
//!
//! [`generate`] gives the small form, of 8 fields on 16 root blocks that are refined, or the large one, of
//! 256 fields on 16,384 blocks.
#![tactic(auto)]

mod blocks;
mod form;
mod generated;
mod settings;
mod values;

pub use generated::generate;
