//! What a leaf wishes.

/// What a criterion of refinement wishes for a leaf.
#[derive(Clone, Copy, PartialEq, Eq, Debug)]
pub enum Wish {
    /// The leaf is to be refined.
    Refine,
    /// The leaf is to stay as it is.
    Same,
    /// The leaf may be merged with its siblings.
    Derefine,
}
