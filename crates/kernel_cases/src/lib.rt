//! Tests of the kernels of a block alone: shares and sums between levels, stages by each kernel, ghosts and flux pairs
//! between blocks of two levels, and reactions, in tables of small cases that were worked out by hand.
#![tactic(auto)]

mod calls;
mod corrections;
mod letters;
mod reactions;
mod small;

pub use calls::{fused, prolonged, restricted, slopes};
pub use corrections::{Finer, Passed, TwoLevels, corrected, replaced};
pub use letters::{Places, Sender, unfilled};
pub use reactions::{Expected, both_react, one_reacts, one_reacts_or_gives_up};

#[cfg(test)]
mod correction_tests;
#[cfg(test)]
mod letter_tests;
#[cfg(test)]
mod reaction_tests;
#[cfg(test)]
mod tests;
