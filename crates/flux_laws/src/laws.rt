//! Laws of the pairs between leaves of two levels.

ghost use Rattle.flux_laws.specs.Corrected.{CoarsePairs, CorrectedPairs};

/// At each face of a block that a finer leaf covers, the mesh's pair is the sum of the pairs which the lists of that
/// leaf have at its own faces there.
pub fn coarse_pair_law()
    ensures { CoarsePairs }
{}

/// Lists of a block that have its own pairs, and at the faces behind which finer leaves stand the sums of what their
/// lists have, have the pairs of the mesh at all faces.
pub fn corrected_law()
    ensures { CorrectedPairs }
{}
