//! What exchanges read of a mesh.

ghost use Rattle.task_meshes.specs.Alike.{MeshesAreAlike};

/// An exchange reads the settings, the tree and the layout of a mesh: the letters that are due, the blocks of lists,
/// the parts of letters, ghosts and corrections are the same on each mesh of a cycle that has these.
pub fn mesh_law()
    ensures { MeshesAreAlike }
{}
