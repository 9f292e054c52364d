//! Laws of mesh states.

ghost use Rattle.cell_block.specs.Laws.{CountsAreKept, SlotsArePlaces, TotalsAreInteriors};

/// The mesh and the mask that a mesh state stands for have what its places have.
pub fn state_laws()
    ensures totals { TotalsAreInteriors }
    ensures slots { SlotsArePlaces }
    ensures counts { CountsAreKept }
{}
