//! Laws of the definitions.

ghost use Rattle.block_geometry.specs.Laws.{CellsOfBlocks, RowsAreLooks, WorkedPlaces};

/// The cells of a block lie in it. What lies across a side of a cell is the next cell of the block, and from the
/// block's last layer the first cell of the block across this side, in the same row.
pub fn cell_laws()
    ensures { CellsOfBlocks }
{}

/// Where the ghosts of a block are the look, the two totals below and the two above each face of its cells are those
/// that the mesh sees there.
pub fn row_law()
    ensures { RowsAreLooks }
{}

/// Where cells and ghosts lie in lists, with the numbers written out.
pub fn worked_places()
    ensures { WorkedPlaces }
{}
