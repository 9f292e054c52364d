//! Boxes that ask for refinement.

/// A box that the opening tree refines to a level: the root cells from `lo` to `hi` along x1, x2, x3, both included.
#[derive(Clone, Copy, PartialEq, Eq, Debug)]
pub struct StaticBox {
    pub level: u32,
    pub lo: [u32; 3],
    pub hi: [u32; 3],
}
