//! What becomes of a leaf.

/// What a leaf is tagged with before the tree changes.
#[derive(Clone, Copy, PartialEq, Eq, Debug)]
pub enum Tag {
    /// The leaf becomes an inner node.
    Refine,
    /// The leaf stays, unless a neighbour forces it to be refined.
    Same,
    /// The leaf and its siblings become one leaf, where all of them have this tag.
    Merge,
}
