//! Tests of what is stored: shelves, masks, notes of packs, lists of tasks, and mesh states through steps that follow one
//! another. The calls that make a step serve all tables.
#![tactic(auto)]

mod steps;

pub use steps::{Case, Step, told};

#[cfg(test)]
mod tests;
