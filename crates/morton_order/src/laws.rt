//! Laws of the lattices.

ghost use Rattle.morton_order.specs.Neighbours.{NeighboursAreExact, TouchingIsMutual};

/// The neighbours of a location are exactly what touches it, and to touch is mutual.
pub fn neighbour_laws()
    ensures exact { NeighboursAreExact }
    ensures mutual { TouchingIsMutual }
{}
