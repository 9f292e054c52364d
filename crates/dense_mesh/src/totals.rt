//! What a field has on the leaves of a mesh.

use cell_lists::Cells;
use package_fields::Items;

/// The totals of a field: for each leaf those of its own cells, x1 fastest, without ghosts.
pub type FieldTotals = Items<Cells>;

/// Whether a field is kept on a block, and at how many checks in a row it was idle there.
#[derive(Clone, Copy, Debug, PartialEq, Eq)]
pub struct Slot {
    /// Whether it is kept.
    pub kept: bool,
    /// At how many checks in a row it was idle.
    pub idle: u32,
}

/// The slots of a field: one for each leaf.
pub type FieldSlots = Items<Slot>;
