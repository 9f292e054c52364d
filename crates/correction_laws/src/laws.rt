//! Laws of flux parts and of sums over sides.

ghost use Rattle.correction_laws.specs.Passed.{PassedAreSides};
ghost use Rattle.correction_laws.specs.Replaced.{ReplacedAreCorrected, ReplacedGainPairs};

/// Where the flux part of a finer leaf is put in the lists of a coarser one, the faces that the finer leaf covers have
/// the sums of what its lists have behind them, and all other faces have what they had.
pub fn replaced_law()
    ensures { ReplacedAreCorrected }
{}

/// So these faces have the mesh's pairs, and each face that had the mesh's pair before has it still.
pub fn gained_pairs_law()
    ensures { ReplacedGainPairs }
{}

/// What `transport_kernel::passed` adds up is what the laws of flows speak of.
pub fn passed_law()
    ensures { PassedAreSides }
{}
