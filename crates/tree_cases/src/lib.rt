//! Tests of trees: how many leaves some trees have, what is behind a side, and what tags make of a tree. The calls
//! that make tags serve the bench as well.
#![tactic(auto)]

mod tagged;

pub use tagged::{fits, tags_with};

#[cfg(test)]
mod tests;
