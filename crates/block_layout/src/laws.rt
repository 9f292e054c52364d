//! Laws of indices, cells and faces.

ghost use Rattle.block_layout.specs.Laws.{FacesAreNumbered, NumbersAreIndices, RegionsLieIn};

/// The indices of a box of cells and their numbers, x1 fastest, determine each other.
pub fn index_laws()
    ensures { NumbersAreIndices }
{}

/// The interior of a block, the ghosts next to its sides and the layers within lie in the list of the block.
pub fn region_laws()
    ensures { RegionsLieIn }
{}

/// Each face has its own number.
pub fn face_laws()
    ensures { FacesAreNumbered }
{}
