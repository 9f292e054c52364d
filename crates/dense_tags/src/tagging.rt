//! The tags of leaves.

ghost use Rattle.std.specs.Prelude.{◌≡◌, ◌≤◌, All, IfOk, length};
ghost use Rattle.block_tree.specs.Blocks.{leaves};
ghost use Rattle.problem_set.specs.SettingsOf.{settings_of};
ghost use Rattle.dense_mesh.specs.Meshes.{IsMeshIn};
ghost use Rattle.dense_tags.specs.LeafTags.{AreCountersAfter, AreTagsAfter};

use crate::leaf_wishes::leaf_wish;
use block_layout::Layout;
use block_tree::Tree;
use dense_mesh::FieldTotals;
use mesh_num::NoMemory;
use problem_set::Problem;
use refine_tags::{Tag, settle};
use std::alloc::Global;

/// What the wishes of the leaves come to, by the numbers of the leaves.
#[derive(Drop)]
pub struct TagsOfLeaves {
    pub tags: Vec<Tag>,
    /// How often in a row each leaf has wished to derefine, up to the number that is asked for.
    pub counters: Vec<u32>,
}

/// The tags of the leaves at the end of a cycle, and their counters, by the mesh that the lists are and the counters
/// before.
pub fn tags(
    alloc: Global,
    problem: &Problem,
    tree: &Tree,
    layout: &Layout,
    lists: &[FieldTotals],
    counters: &[u32],
) -> Result<TagsOfLeaves, NoMemory>
    requires mesh { IsMeshIn (settings_of problem.now) tree.now layout.now lists.now }
    requires count { length counters.now ≡ length (leaves tree.now) }
    requires counters { All (λ count. count ≤ problem.now.derefine_count) counters.now }
    ensures tags { IfOk result (λ now. AreTagsAfter
        (settings_of problem.now) tree.now lists.now counters.now now.tags.items) }
    ensures counters { IfOk result (λ now.
        AreCountersAfter (settings_of problem.now) tree.now lists.now counters.now now.counters.items) }
    ensures bound { IfOk result (λ now. All (λ count. count ≤ problem.now.derefine_count) now.counters.items) }
{
    let criteria = problem.criteria.as_slice();
    let mut tags = Vec::with_capacity(alloc, tree.len() as usize)?;
    let mut next = Vec::with_capacity(alloc, tree.len() as usize)?;
    for leaf in 0..tree.len() {
        let level = tree.leaf_at(leaf).level;
        let wish = leaf_wish(criteria, level, layout, lists, leaf);
        let settled = settle(wish, counters[leaf as usize], problem.derefine_count);
        tags.push(settled.tag)?;
        next.push(settled.count)?;
    }
    Ok(TagsOfLeaves {
        tags,
        counters: next,
    })
}
