//! What a stage needs of a leaf, whether the leaves of a mesh are worked on in one pass or block by block.
//!
//! [`level_portions`] has the rates of a field at a level with the multipliers that stand for them, [`closed_sides`]
//! says which sides of a leaf nothing passes, and [`leaf_flows`] adds up what passes its faces of the domain.
#![tactic(auto)]

mod flows;
mod rates;

pub use flows::{LeafFlows, leaf_flows};
pub use rates::{LevelPortions, closed_sides, level_portions, portions_at};
