//! Leaves of a next tree.

use block_layout::Layout;
use cell_block::MeshState;
use dense_remesh::Origin;
use morton_order::Loc;

/// A leaf of a next tree.
#[derive(Clone, Copy)]
pub(crate) struct NewLeaf<'a> {
    pub(crate) layout: &'a Layout,
    /// The mesh state on the tree before.
    pub(crate) old: &'a MeshState,
    /// The number of the leaf.
    pub(crate) number: u32,
    /// Where it lies.
    pub(crate) at: Loc,
    /// The leaves before in whose place it stands.
    pub(crate) origin: Origin,
}
