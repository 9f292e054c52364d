//! The next tree.

ghost use Rattle.std.specs.Prelude.{◌≡◌, IfOk, IfErr};
ghost use Rattle.block_tree.specs.Blocks.{RefusedByCount, is_inner_of, tree_with};
ghost use Rattle.block_tree.specs.Next.{IsNear, IsNext};
ghost use Rattle.tree_change.specs.Tagged.{AreTags, next_of, tag_of};

use crate::wanted::{kept_nodes, push_refined};
use block_tree::{Tag, Tree, TreeFault};
use std::alloc::Global;

/// The least balanced tree that holds what the tags of a tree's leaves want: the inner nodes but those whose children
/// are all leaves that may merge, and the leaves that are to be refined. `tags` has one tag a leaf, in the order of
/// the leaves.
///
/// Each leaf changes by at most one level. TooManyBlocks comes where the next tree has more than 65,536 leaves, and
/// carries their number; TooManyAtStart never comes. Where nothing changes it costs little.
pub fn next_tree(alloc: Global, tree: &Tree, tags: &[Tag]) -> Result<Tree, TreeFault>
    requires { AreTags tree.now tags.now }
    ensures next { IfOk result (λ next. next ≡ tree_with tree.now.shape (next_of tree.now tags.now)) }
    ensures least { IfOk result (λ next. IsNext tree.now.shape (is_inner_of tree.now) (tag_of tree.now tags.now)
        (is_inner_of next)) }
    ensures near { IfOk result (λ next. IsNear tree.now.shape (is_inner_of tree.now) (is_inner_of next)) }
    ensures fault { IfErr result (RefusedByCount tree.now.shape (next_of tree.now tags.now)) }
{
    let _ = tree.len();
    let nodes = tree.inner_nodes();
    let mut wanted = kept_nodes(alloc, tree, tags, nodes)?;
    let kept = wanted.len();
    push_refined(tree.leaves(), tags, &mut wanted)?;
    if kept == nodes.len() && wanted.len() == kept {
        return Ok(tree.copy(alloc)?);
    }
    Tree::grown(alloc, *tree.shape(), wanted.as_slice())
}
