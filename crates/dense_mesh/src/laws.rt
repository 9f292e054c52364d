//! Laws of meshes in lists.

ghost use Rattle.dense_mesh.specs.Laws.{FieldListsAreMeshes, ListsAreTotals};

/// What a mesh in lists has of a field on a leaf is the leaf's list of that field.
pub fn field_lists_law()
    ensures { ListsAreTotals }
{}

/// Lists that have what each cell of a mesh gives, field by field, are the mesh that is filled so.
pub fn mesh_law()
    ensures { FieldListsAreMeshes }
{}
