//! The law of flux letters.

ghost use Rattle.flux_regions.specs.Regions.{FluxPartsAreRegions};

/// The flux part that a finer leaf's lists give for a coarser leaf has the pairs of the receiver's faces that the
/// sender covers: all to the right, then all to the left.
pub fn flux_region_law()
    ensures { FluxPartsAreRegions }
{}
