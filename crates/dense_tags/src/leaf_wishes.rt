//! What a leaf wishes.

ghost use Rattle.std.specs.Prelude.{◌≡◌, ◌<◌, ◌≤◌, All, length, map};
ghost use Rattle.deck_entries.specs.declared.entries.Criterion.{Criterion};
ghost use Rattle.mesh_rules.specs.Tags.{at_root as at_root_of, strongest as strongest_of};
ghost use Rattle.block_layout.specs.Layouts.{interior_len};
ghost use Rattle.cell_boxes.specs.Boxes.{IsBoxIn};
ghost use Rattle.dense_tags.specs.LeafWishes.{HaveLeaf, leaf_wish as leaf_wish_of, list_wish, own_box as own_box_of};

use block_layout::Layout;
use block_regions::whole;
use cell_boxes::BoxIn;
use dense_mesh::FieldTotals;
use problem_set::Criterion;
use refine_tags::{Wish, stronger, wish_of};

/// A block's list without ghosts as a box.
fn own_box(layout: &Layout) -> BoxIn
    ensures value { result ≡ own_box_of layout.now }
    ensures lies { IsBoxIn layout.now.cells result (interior_len layout.now) }
{
    let [along1, along2, along3] = layout.cells;
    whole([along1 as usize, along2 as usize, along3 as usize])
}

/// What a criterion wishes for a leaf of a level.
fn wish_on(
    criterion: &Criterion,
    level: u32,
    layout: &Layout,
    lists: &[FieldTotals],
    leaf: u32,
) -> Wish
    requires field { criterion.now.field < length lists.now }
    requires level { level ≤ 10 }
    requires leaf { HaveLeaf layout.now lists.now leaf }
    ensures { result ≡ list_wish layout.now level lists.now leaf criterion.now }
{
    let field = lists[criterion.field as usize].as_slice();
    let cells = field[leaf as usize].as_slice();
    wish_of(criterion, level, layout, cells, &own_box(layout))
}

/// The strongest of what criteria wish for a leaf of a level, to stay where there is none.
fn strongest(
    criteria: &[Criterion],
    level: u32,
    layout: &Layout,
    lists: &[FieldTotals],
    leaf: u32,
) -> Wish
    requires fields { All (λ (c : Criterion). c.field < length lists.now) criteria.now }
    requires level { level ≤ 10 }
    requires leaf { HaveLeaf layout.now lists.now leaf }
    ensures { result ≡ strongest_of (map (list_wish layout.now level lists.now leaf) criteria.now) }
{
    if criteria.is_empty() {
        return Wish::Same;
    }
    let first = wish_on(&criteria[0], level, layout, lists, leaf);
    if criteria.len() == 1 {
        return first;
    }
    let others = strongest(&criteria[1..], level, layout, lists, leaf);
    stronger(first, others)
}

/// A wish at a level: a root stays where it wishes to derefine.
fn at_root(level: u32, wish: Wish) -> Wish
    ensures { result ≡ at_root_of level wish }
{
    if level > 0 {
        return wish;
    }
    match wish {
        Wish::Refine => Wish::Refine,
        Wish::Same => Wish::Same,
        Wish::Derefine => Wish::Same,
    }
}

/// What a leaf of a level wishes.
pub(crate) fn leaf_wish(
    criteria: &[Criterion],
    level: u32,
    layout: &Layout,
    lists: &[FieldTotals],
    leaf: u32,
) -> Wish
    requires fields { All (λ (c : Criterion). c.field < length lists.now) criteria.now }
    requires level { level ≤ 10 }
    requires leaf { HaveLeaf layout.now lists.now leaf }
    ensures { result ≡ leaf_wish_of criteria.now layout.now level lists.now leaf }
{
    at_root(level, strongest(criteria, level, layout, lists, leaf))
}
