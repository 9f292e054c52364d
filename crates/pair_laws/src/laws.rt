//! Laws of the pairs at the faces of a block.

ghost use Rattle.pair_laws.specs.InRows.{PairsInRows};

/// By either order, where the ghosts of a block are the look, the mesh's pair at a face behind which no finer cells
/// are stored is that of the two totals below and the two above it in the row of the cell, and nothing where the face
/// of the domain reflects.
pub fn row_pair_law()
    ensures { PairsInRows }
{}
