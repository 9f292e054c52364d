//! The types that say where something lies.

/// A block, or a cell, of a mesh: its refinement level and its place among the locations of that level.
///
/// The coordinates count locations of the level from the low corner of the domain, in the order x1, x2, x3.
#[derive(Clone, Copy, PartialEq, Eq, Hash, Default, Debug)]
pub struct Loc {
    pub level: u32,
    pub l1: u32,
    pub l2: u32,
    pub l3: u32,
}

/// The coarsest lattice of a mesh: how many axes are in use, the root blocks along each, and which axes wrap round.
#[derive(Clone, Copy, PartialEq, Eq, Debug)]
pub struct Shape {
    pub dims: u32,
    pub root: [u32; 3],
    pub wrap: [bool; 3],
}

/// A side of a block: the axis that is normal to it, counted from 0, and whether it is the high one.
#[derive(Clone, Copy, PartialEq, Eq, Debug)]
pub struct Side {
    pub axis: u32,
    pub high: bool,
}
