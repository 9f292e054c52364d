//! Laws of parts, and of the ghosts that they give.

ghost use Rattle.letter_laws.specs.Bounds.{LooksAreBounded, PartsAreBelow, RegionsAreBounded, WrittenStayBelow};
ghost use Rattle.letter_laws.specs.Ghosts.{CoarserSees, FinerCovers, FinerSees, OutsideSees, SameSees};
ghost use Rattle.letter_laws.specs.Parts.{CoarserSends, FinerSends, SameSends};
ghost use Rattle.letter_laws.specs.Stays.{InteriorStays, PartsStay, SidesStay};

/// What a sender behind a side makes of its cells is the mesh's region there: of its own level, finer, or coarser.
pub fn part_laws()
    ensures same { SameSends }
    ensures finer { FinerSends }
    ensures coarser { CoarserSends }
{}

/// The ghosts that the region of a sender gives, or what stands outside of the domain, are what the mesh sees beyond a
/// side. The finer senders behind a side cover all of it.
pub fn seen_laws()
    ensures outside { OutsideSees }
    ensures same { SameSees }
    ensures finer { FinerSees }
    ensures covers { FinerCovers }
    ensures coarser { CoarserSees }
{}

/// No look in a cell of the domain, and no total of a region, is above the field's total of the mesh; so the sums of a
/// finer sender are below each bound that this total is below, and ghosts that are written by totals below a bound
/// leave a list below it.
pub fn bound_laws()
    ensures looks { LooksAreBounded }
    ensures regions { RegionsAreBounded }
    ensures parts { PartsAreBelow }
    ensures written { WrittenStayBelow }
{}

/// What is written into the ghosts beyond a side leaves the block's own cells as they were, and the ghosts beyond its
/// other sides; and what is written into a part of them those of the other parts.
pub fn stay_laws()
    ensures interior { InteriorStays }
    ensures sides { SidesStay }
    ensures parts { PartsStay }
{}
