//! Calls of the whole program over depots and sinks in memory, and the decks of worked runs: what the crates of worked
//! tests share.
#![tactic(auto)]

mod calls;
mod decks;

pub use calls::{Called, call, call_failing, call_with, failing, input, is_file, words};
pub use decks::{
    ADAPTIVE_ROW, FULL_TREE, GRADED_ROW, GRADED_SQUARE, ONE_BLOCK, ONE_BLOCK_HISTORY, REACTION,
    SEED_SEVEN, STORED_GRADED_ROW, TWO_BLOCKS, TWO_DYES, dump, many_fields, many_fields_dump,
    many_static_boxes,
};
