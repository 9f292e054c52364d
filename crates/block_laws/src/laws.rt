//! Laws of the kernels on a block of a mesh.

ghost use Rattle.block_laws.specs.Pairs.{FirstOrderPairs};
ghost use Rattle.block_laws.specs.Update.{UpdateIsStage};

/// Where the ghosts of a block are the look, what passes its faces by the first order is the mesh's pair at each face
/// but those behind which finer cells are stored.
pub fn first_order_law()
    ensures { FirstOrderPairs }
{}

/// Where the lists of a block have the mesh's pairs at all faces, a cell with its gains and without its losses is the
/// one after the mesh's stage.
pub fn stage_law()
    ensures { UpdateIsStage }
{}
