//! Tags of leaves.

ghost use Rattle.std.specs.Prelude.{◌≡◌, ◌<◌, IsTrue, IfOk, length};
ghost use Rattle.tree_change.specs.Tagged.{AreTags};

use block_tree::{Tag, Tree};
use std::alloc::{AllocError, Global};

/// Tags of so many leaves: one for those from a number on, up to another, and Same for the others.
pub fn tags_with(
    alloc: Global,
    leaves: u32,
    tag: Tag,
    from: u32,
    to: u32,
) -> Result<Vec<Tag>, AllocError> {
    let mut tags = Vec::with_capacity(alloc, leaves as usize)?;
    for i in 0..leaves {
        tags.push(if from <= i && i < to { tag } else { Tag::Same })?;
    }
    Ok(tags)
}

/// Whether there is one tag a leaf, and no leaf is of level 10.
pub fn fits(tree: &Tree, tags: &[Tag]) -> bool
    ensures { IsTrue result → AreTags tree.now tags.now }
{
    let leaves = tree.leaves();
    if tags.len() != leaves.len() {
        return false;
    }
    for i in 0..leaves.len() {
        if leaves[i].level >= 10 {
            return false;
        }
    }
    true
}
