//! What a task leaves.

use field_bufs::Bufs;
use item_lists::Items;

/// What a task of a partition leaves in the store.
#[derive(Debug, Drop)]
pub struct Left {
    /// The partition.
    pub list: u32,
    /// Whether the task changes the totals of its blocks: then the stamps of those of their buffers that it was not lent
    /// rise too.
    pub changes: bool,
    /// The buffers that it was lent.
    pub bufs: Bufs,
    /// The next idle counts of their places, or none where they stay.
    pub counts: Items<u32>,
    /// The buffers that it makes.
    pub made: Bufs,
}
