//! What blocks wish.

ghost use Rattle.std.specs.Prelude.{◌≡◌, ◌-◌, ◌<◌, ◌≤◌, [], All, IfOk, length, map, replicate};
ghost use Rattle.std.specs.List.{range_with_len};
ghost use Rattle.block_tree.specs.Blocks.{leaves};
ghost use Rattle.block_layout.specs.Layouts.{interior_len, len};
ghost use Rattle.field_bufs.specs.Buffers.{HasSizes};
ghost use Rattle.mesh_rules.specs.Tags.{at_root as at_root_of, strongest as strongest_of};
ghost use Rattle.lent_bufs.specs.Meshes.{IsTreeOf, mesh_in};
ghost use Rattle.tail_tasks.specs.Blocks.{AreByBlock};
ghost use Rattle.tail_tasks.specs.Wishes.{wish_by_bufs, wish_on};

use crate::blocks::end_of;
use block_layout::Layout;
use block_tree::Tree;
use field_bufs::FieldBuf;
use mesh_num::NoMemory;
use mesh_rules::Wish;
use package_fields::Items;
use problem_set::{Criterion, Problem};
use refine_tags::{own_cells, stronger, wish_of};
use std::alloc::Global;

/// What a criterion wishes of a block that has nothing of its field.
fn wish_of_none(criterion: &Criterion, level: u32, layout: &Layout) -> Wish
    ensures { result ≡ wish_by_bufs layout.now level [] criterion.now }
{
    if criterion.derefine_tol > 0 {
        Wish::Derefine
    } else {
        Wish::Same
    }
}

/// What a criterion wishes of a block of a level, whose buffers these are.
fn criterion_wish(criterion: &Criterion, level: u32, layout: &Layout, bufs: &[FieldBuf]) -> Wish
    requires level { level ≤ 10 }
    requires sizes { All (HasSizes layout.now) bufs.now }
    ensures { result ≡ wish_by_bufs layout.now level bufs.now criterion.now }
{
    for buf in bufs {
        if buf.field == criterion.field {
            return wish_of(
                criterion,
                level,
                layout,
                buf.cells.as_slice(),
                &own_cells(layout),
            );
        }
    }
    wish_of_none(criterion, level, layout)
}

/// The strongest of what criteria wish of a block, to stay where there is none.
fn strongest(criteria: &[Criterion], level: u32, layout: &Layout, bufs: &[FieldBuf]) -> Wish
    requires level { level ≤ 10 }
    requires sizes { All (HasSizes layout.now) bufs.now }
    ensures { result ≡ strongest_of (map (wish_by_bufs layout.now level bufs.now) criteria.now) }
{
    if criteria.is_empty() {
        return Wish::Same;
    }
    let first = criterion_wish(&criteria[0], level, layout, bufs);
    if criteria.len() == 1 {
        return first;
    }
    let others = strongest(&criteria[1..], level, layout, bufs);
    stronger(first, others)
}

/// A wish at a level: a root stays where it wishes to derefine.
fn at_root(level: u32, wish: Wish) -> Wish
    ensures { result ≡ at_root_of level wish }
{
    if level > 0 {
        return wish;
    }
    match wish {
        Wish::Refine => Wish::Refine,
        Wish::Same => Wish::Same,
        Wish::Derefine => Wish::Same,
    }
}

/// What a block of a level wishes.
fn block_wish(criteria: &[Criterion], level: u32, layout: &Layout, bufs: &[FieldBuf]) -> Wish
    requires level { level ≤ 10 }
    requires sizes { All (HasSizes layout.now) bufs.now }
    ensures { result ≡ at_root_of level (strongest_of (map (wish_by_bufs layout.now level bufs.now) criteria.now)) }
{
    at_root(level, strongest(criteria, level, layout, bufs))
}

/// What the blocks from one on and before another wish, in their order, by the buffers that there are. A field that
/// has no buffer on a block counts as zeros there.
pub fn wishes_of(
    alloc: Global,
    problem: &Problem,
    tree: &Tree,
    layout: &Layout,
    first: u32,
    end: u32,
    bufs: &[FieldBuf],
) -> Result<Items<Wish>, NoMemory>
    requires tree { IsTreeOf problem.now tree.now layout.now }
    requires end { end ≤ length (leaves tree.now) }
    requires sizes { All (HasSizes layout.now) bufs.now }
    requires order { AreByBlock first end bufs.now }
    ensures { let w = mesh_in problem.now tree.now layout.now in
        IfOk result (λ wishes. wishes ≡ map (wish_on w bufs.now) (range_with_len first (end - first))) }
{
    let criteria = problem.criteria.as_slice();
    let mut wishes = Vec::new(alloc);
    let mut at = 0;
    for block in first..end {
        let next = end_of(bufs, at, block);
        let level = tree.leaf_at(block).level;
        wishes.push(block_wish(criteria, level, layout, &bufs[at..next]))?;
        at = next;
    }
    Ok(Items::from_vec(wishes))
}
