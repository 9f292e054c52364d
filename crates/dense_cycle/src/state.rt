//! Where a cycle starts and ends.

use dense_mesh::{FieldSlots, FieldTotals};
use package_fields::Items;

/// A mesh in lists, and what is kept on it.
#[derive(Drop)]
pub struct DenseHeld {
    /// The totals by field, leaf and cell.
    pub lists: Items<FieldTotals>,
    /// The slots by field and leaf.
    pub slots: Items<FieldSlots>,
}

/// What a cycle starts with: a mesh, what is kept on it, and for each leaf how often in a row it has wished to
/// derefine.
#[derive(Drop)]
pub struct DenseState {
    pub held: DenseHeld,
    pub counters: Items<u32>,
}
