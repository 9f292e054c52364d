//! Flux correction on the mesh: at a face behind which finer leaves stand, the mesh's pair is the sum of the pairs
//! that the lists of a finer leaf have there.
//!
//! The functions carry laws: they have empty bodies, and their contracts are proved.
#![tactic(auto)]

mod laws;

pub use laws::{coarse_pair_law, corrected_law};
