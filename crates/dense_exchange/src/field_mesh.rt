//! Fields on meshes.

use block_layout::Layout;
use block_tree::Tree;
use dense_mesh::FieldTotals;
use problem_set::Problem;

/// A field on a mesh, whose ghost zones are filled.
#[derive(Clone, Copy)]
pub(crate) struct FieldMesh<'a> {
    pub(crate) problem: &'a Problem,
    pub(crate) tree: &'a Tree,
    pub(crate) layout: &'a Layout,
    /// The totals by field and leaf.
    pub(crate) lists: &'a [FieldTotals],
    /// The number of the field.
    pub(crate) field: u32,
}
