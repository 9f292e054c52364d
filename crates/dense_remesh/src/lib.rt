//! A dense run's lists on its first tree and on each next one.
//!
//! [`opening_lists`] makes the totals on the opening tree by the boxes of a problem. [`remap`] carries totals over to
//! the next tree: a leaf that stays keeps its totals, a finer one gets shares, a coarser one sums. [`carried_slots`]
//! and [`carried_counters`] do the same for what is kept of the leaves. What they do on one leaf is public too,
//! for meshes that are kept in another form.
#![tactic(auto)]

mod carried;
mod opening;
mod opening_cells;
mod origins;
mod parts;
mod remapping;
mod start_boxes;

pub use carried::{carried_counters, carried_slots};
pub use opening::{boxes_in, opening_block, opening_lists};
pub use opening_cells::number_in_parent;
pub use origins::{Origin, child_count, leaf_origins};
pub use parts::write_child_sums;
pub use remapping::{child_shares, remap};
pub use start_boxes::boxes_of;
