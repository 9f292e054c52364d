//! Laws of trees.

ghost use Rattle.block_tree.specs.Behind.{BehindIsExact, BehindIsMutual};
ghost use Rattle.block_tree.specs.Change.{ChangesByOneLevel};
ghost use Rattle.block_tree.specs.Leaves.{InnersAreListed, LeavesLaw};
ghost use Rattle.block_tree.specs.Least.{LeastIsLeast, OpeningIsLeast};
ghost use Rattle.block_tree.specs.Next.{NextIsLeast, NextIsNear};
ghost use Rattle.block_tree.specs.Worked.{WorkedTrees};

/// The nodes that are found level by level are the least balanced tree that holds what is wanted; so is the opening
/// tree for what static boxes want.
pub fn least_tree_law()
    ensures least { LeastIsLeast }
    ensures opening { OpeningIsLeast }
{}

/// What is named behind a side of a leaf is exactly the leaves that touch it, and to stand behind is mutual.
pub fn behind_laws()
    ensures exact { BehindIsExact }
    ensures mutual { BehindIsMutual }
{}

/// Each leaf of the least tree that follows a balanced one differs by at most one level from each old leaf that it
/// meets.
pub fn change_law()
    ensures { ChangesByOneLevel }
{}

/// The next tree is the least balanced one that holds what its tags want, and each leaf changes by at most one level.
pub fn next_tree_laws()
    ensures least { NextIsLeast }
    ensures near { NextIsNear }
{}

/// The listed leaves are exactly the leaves of the tree, each once, by rising key.
pub fn leaves_law()
    ensures { LeavesLaw }
{}

/// Small trees, worked out: what boxes want, the opening and the next tree, and what is behind a side.
pub fn worked_trees()
    ensures { WorkedTrees }
{}

/// The listed inner nodes are exactly the inner nodes of the tree.
pub fn inner_nodes_law()
    ensures { InnersAreListed }
{}
