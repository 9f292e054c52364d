//! The trees that are built.

ghost use Rattle.std.specs.Prelude.{◌≤◌};

use block_tree::{StaticBox, Tag, Tree, TreeFault};
use morton_order::Shape;
use std::alloc::Global;
use tree_cases::{fits, tags_with};
use tree_change::next_tree;

/// Which tree is built.
#[derive(Clone, Copy, PartialEq, Eq, Debug)]
pub(crate) enum Case {
    Uniform,
    Corner,
    Next,
}

impl Case {
    /// The case with a name, the first one where there is none.
    pub(crate) fn named(word: &str) -> Case {
        if word == "corner" {
            Case::Corner
        } else if word == "next" {
            Case::Next
        } else {
            Case::Uniform
        }
    }
}

/// Refinement to level 2 of 64 by 64 roots of four by four cells.
const EVERYWHERE: [StaticBox; 1] = [StaticBox {
    level: 2,
    lo: [0, 0, 0],
    hi: [255, 255, 0],
}];

/// Refinement of a cube at the low corner, half as wide with each level.
const CORNER: [StaticBox; 8] = [
    StaticBox {
        level: 1,
        lo: [0, 0, 0],
        hi: [639, 639, 639],
    },
    StaticBox {
        level: 2,
        lo: [0, 0, 0],
        hi: [319, 319, 319],
    },
    StaticBox {
        level: 3,
        lo: [0, 0, 0],
        hi: [159, 159, 159],
    },
    StaticBox {
        level: 4,
        lo: [0, 0, 0],
        hi: [79, 79, 79],
    },
    StaticBox {
        level: 5,
        lo: [0, 0, 0],
        hi: [39, 39, 39],
    },
    StaticBox {
        level: 6,
        lo: [0, 0, 0],
        hi: [19, 19, 19],
    },
    StaticBox {
        level: 7,
        lo: [0, 0, 0],
        hi: [9, 9, 9],
    },
    StaticBox {
        level: 8,
        lo: [0, 0, 0],
        hi: [4, 4, 4],
    },
];

/// Roots in a plane, refined to level 2 everywhere.
fn plane(alloc: Global, roots: u32) -> Result<Tree, TreeFault>
    requires least { 1 ≤ roots }
    requires most { roots ≤ 64 }
{
    let shape = Shape {
        dims: 2,
        root: [roots, 64, 1],
        wrap: [false; 3],
    };
    Tree::from_static(alloc, shape, [4, 4, 1], &EVERYWHERE)
}

/// Roots in space, refined around a corner.
fn space(alloc: Global) -> Result<Tree, TreeFault> {
    let shape = Shape {
        dims: 3,
        root: [10; 3],
        wrap: [false; 3],
    };
    Tree::from_static(alloc, shape, [64; 3], &CORNER)
}

/// The number of leaves of the next tree where the first leaf is to be refined, built some times.
fn next_leaves(alloc: Global, times: u32) -> Result<u32, TreeFault> {
    let tree = plane(alloc, 63)?;
    let tags = tags_with(alloc, tree.len(), Tag::Refine, 0, 1)?;
    let mut leaves = 0;
    for _ in 0..times {
        if fits(&tree, tags.as_slice()) {
            leaves = next_tree(alloc, &tree, tags.as_slice())?.len();
        }
    }
    Ok(leaves)
}

/// The number of leaves of a tree that is built some times, at least once.
pub(crate) fn leaves_of(alloc: Global, case: Case, times: u32) -> Result<u32, TreeFault> {
    let mut leaves = 0;
    for _ in 0..times.max(1) {
        leaves = match case {
            Case::Uniform => plane(alloc, 64)?.len(),
            Case::Corner => space(alloc)?.len(),
            Case::Next => return next_leaves(alloc, times),
        };
    }
    Ok(leaves)
}
