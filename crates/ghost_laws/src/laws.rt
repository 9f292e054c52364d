//! Laws of the ghost layers.

ghost use Rattle.ghost_laws.specs.Given.{FilledSees};
ghost use Rattle.ghost_laws.specs.Refined.{WorkedIndices};
ghost use Rattle.ghost_laws.specs.Seen.{CoarserSeen, FinerSeen, OutsideSeen, SameSeen};

/// What is seen in both ghost layers beyond a side of a block: beyond a face of the domain what stands outside; else
/// what a leaf of the same level has there, the sums of what a finer one has, or the shares of what a coarser one has.
pub fn ghost_look_laws()
    ensures outside { OutsideSeen }
    ensures same { SameSeen }
    ensures finer { FinerSeen }
    ensures coarser { CoarserSeen }
{}

/// A block whose ghosts have what the lists of the leaves behind its sides give, of any level, sees the mesh around:
/// both layers at each side are the look on the block's own level, or what stands outside.
pub fn filled_law()
    ensures { FilledSees }
{}

/// Indices of finer and of coarser cells, with the numbers written out.
pub fn worked_indices()
    ensures { WorkedIndices }
{}
