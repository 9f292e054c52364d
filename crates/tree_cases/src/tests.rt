ghost use Rattle.std.specs.Prelude.{◌≡◌, ◌≤◌, false, true, [], ◌∷◌, All};
ghost use Rattle.morton_order.specs.Space.{IsShape};

use crate::tagged::{fits, tags_with};
use block_tree::{Behind, StaticBox, Tag, Tree, TreeFault};
use morton_order::{Loc, Shape, Side};
use std::alloc::Global;
use std::test::Fail;
use tree_change::next_tree;

/// Where no tree is told of.
const NO_ANSWER: u64 = 1 << 32;

/// How many leaves a tree has, or would have, 0 where it is refused at the start.
fn count_of(made: Result<Tree, TreeFault>) -> u64 {
    match made {
        Ok(tree) => u64::from(tree.len()),
        Err(TreeFault::TooManyAtStart) => 0,
        Err(TreeFault::TooManyBlocks { leaves }) => leaves,
        Err(TreeFault::NoMemory) => NO_ANSWER,
    }
}

/// The opening tree that one box wants. Boxes of level 0 want nothing.
fn opened(alloc: Global, shape: Shape, cells: [u32; 3], area: StaticBox) -> Result<Tree, TreeFault>
    requires shape { IsShape shape }
    requires cells { All (λ n. (1 ≤ n) × (n ≤ 64)) cells }
    requires level { area.level ≤ 10 }
{
    Tree::from_static(alloc, shape, cells, &[area])
}

/// How many leaves the tree that follows has, or would have. The leaves from one on, up to another, have a tag, the
/// others stay.
fn next(alloc: Global, made: Result<Tree, TreeFault>, tag: Tag, from: u32, to: u32) -> u64 {
    match made {
        Ok(tree) => match tags_with(alloc, tree.len(), tag, from, to) {
            Ok(tags) => next_with(alloc, &tree, tags.as_slice()),
            Err(_) => NO_ANSWER,
        },
        Err(_) => NO_ANSWER,
    }
}

fn next_with(alloc: Global, tree: &Tree, tags: &[Tag]) -> u64 {
    if fits(tree, tags) {
        count_of(next_tree(alloc, tree, tags))
    } else {
        NO_ANSWER
    }
}

/// What is behind a side: the level over the leaf's own, from 1, or 0 for a face of the domain; how many leaves; the
/// first and the last of them.
fn sight_of(behind: &Behind) -> [u32; 4] {
    match behind {
        Behind::Outside => [0; 4],
        Behind::Same(other) => [2, 1, *other, *other],
        Behind::Coarse(other) => [1, 1, *other, *other],
        Behind::Fine(others) => {
            let count = others.len();
            let first = others.get(0).unwrap_or(0);
            let last = others.get(count.saturating_sub(1)).unwrap_or(0);
            [3, if count <= 4 { count as u32 } else { 0 }, first, last]
        }
    }
}

/// Whether a row's leaf, axis and side have behind them what the row says.
fn sees(tree: &Tree, row: &(u32, u32, bool, [u32; 4])) -> bool {
    let (leaf, axis, high, behind) = *row;
    leaf < tree.len()
        && axis < tree.shape().dims
        && sight_of(&tree.behind(leaf, Side { axis, high })) == behind
}

fn sees_all(made: &Result<Tree, TreeFault>, rows: &[(u32, u32, bool, [u32; 4])]) -> bool {
    match made {
        Ok(tree) => {
            for row in rows {
                if !sees(tree, row) {
                    return false;
                }
            }
            true
        }
        Err(_) => false,
    }
}

/// Whether each row's location has the number that the row says, none where it is no leaf.
fn finds(made: &Result<Tree, TreeFault>, rows: &[(Loc, Option<u32>)]) -> bool {
    match made {
        Ok(tree) => {
            for (at, number) in rows {
                if tree.find(at) != *number {
                    return false;
                }
            }
            true
        }
        Err(_) => false,
    }
}

/// A lattice of roots that does not wrap.
fn closed(dims: u32, root: [u32; 3]) -> Shape
    ensures { result ≡ record { dims = dims; root = root; wrap = false ∷ false ∷ false ∷ [] } }
{
    Shape {
        dims,
        root,
        wrap: [false; 3],
    }
}

/// One root along one axis that wraps round.
fn ring() -> Shape
    ensures { result ≡ record { dims = 1; root = 1 ∷ 1 ∷ 1 ∷ []; wrap = true ∷ false ∷ false ∷ [] } }
{
    Shape {
        dims: 1,
        root: [1; 3],
        wrap: [true, false, false],
    }
}

/// A box that asks for a level.
fn area(level: u32, lo: [u32; 3], hi: [u32; 3]) -> StaticBox
    ensures { result.level ≡ level }
{
    StaticBox { level, lo, hi }
}

/// Two by two roots of four by four cells. A box of level 2 on the cell at the middle makes all four roots inner.
fn middle(alloc: Global) -> Result<Tree, TreeFault> {
    opened(
        alloc,
        closed(2, [2, 2, 1]),
        [4, 4, 1],
        area(2, [3, 3, 0], [3, 3, 0]),
    )
}

/// 64 by 64 roots, refined to level 2 everywhere.
fn everywhere(alloc: Global) -> Result<Tree, TreeFault> {
    opened(
        alloc,
        closed(2, [64, 64, 1]),
        [4, 4, 1],
        area(2, [0; 3], [255, 255, 0]),
    )
}

/// Two roots in space, the first one inner.
fn space(alloc: Global) -> Result<Tree, TreeFault> {
    opened(
        alloc,
        closed(3, [2, 1, 1]),
        [4, 4, 4],
        area(1, [0; 3], [0; 3]),
    )
}

/// One root that wraps round, of four cells, with a level asked for on the first one.
fn wrapped(alloc: Global, level: u32) -> Result<Tree, TreeFault>
    requires { level ≤ 10 }
{
    opened(alloc, ring(), [4, 1, 1], area(level, [0; 3], [0; 3]))
}

/// One root in a plane, refined to a level.
fn square(alloc: Global, level: u32) -> Result<Tree, TreeFault>
    requires { level ≤ 10 }
{
    opened(
        alloc,
        closed(2, [1; 3]),
        [4, 4, 1],
        area(level, [0; 3], [3, 3, 0]),
    )
}

#[test]
fn opening_trees_have_so_many_leaves(rt: HostRuntime) -> Result<(), Fail> {
    let alloc = rt.alloc();
    assert!(rt;
        count_of(middle(alloc)) == 19
            && count_of(space(alloc)) == 9
            && count_of(everywhere(alloc)) == 65_536
    );
    assert!(rt; count_of(wrapped(alloc, 0)) == 1 && count_of(wrapped(alloc, 3)) == 5);
    Ok(())
}

/// 256 by 256 roots, one of them inner.
fn roots_and_more(alloc: Global) -> Result<Tree, TreeFault> {
    let first = area(1, [0; 3], [0; 3]);
    opened(alloc, closed(2, [256, 256, 1]), [4, 4, 1], first)
}

/// 4,194,304 cells along an axis, all of them wanted at level 10.
fn longest(alloc: Global) -> Result<Tree, TreeFault> {
    let finest = area(10, [0; 3], [4_194_303, 0, 0]);
    opened(alloc, closed(1, [65_536, 1, 1]), [64, 1, 1], finest)
}

#[test]
fn too_many_leaves_at_the_start_are_refused(rt: HostRuntime) -> Result<(), Fail> {
    let alloc = rt.alloc();
    assert!(rt; count_of(roots_and_more(alloc)) == 0 && count_of(longest(alloc)) == 0);
    Ok(())
}

/// Whether so many leaves come of tags on one root in a plane. Three of four leaves do not merge.
fn square_follows(alloc: Global) -> bool {
    next(alloc, square(alloc, 0), Tag::Refine, 0, 1) == 4
        && next(alloc, square(alloc, 1), Tag::Merge, 0, 3) == 4
        && next(alloc, square(alloc, 1), Tag::Merge, 0, 4) == 1
}

/// A root does not merge whose corner touches a fine leaf, but where that leaf merges too. A leaf of level 2 that is
/// refined has its three coarser neighbours refined.
fn middle_follows(alloc: Global) -> bool {
    next(alloc, middle(alloc), Tag::Same, 0, 19) == 19
        && next(alloc, middle(alloc), Tag::Merge, 15, 19) == 19
        && next(alloc, middle(alloc), Tag::Merge, 0, 19) == 7
        && next(alloc, middle(alloc), Tag::Refine, 6, 7) == 31
}

#[test]
fn tags_make_so_many_leaves(rt: HostRuntime) -> Result<(), Fail> {
    let alloc = rt.alloc();
    assert!(rt; square_follows(alloc) && middle_follows(alloc));
    assert!(rt; next(alloc, everywhere(alloc), Tag::Refine, 0, 1) == 65_539);
    Ok(())
}

/// In space, and on a root that wraps round: what is behind the low and the high side of some leaves.
const IN_SPACE: [(u32, u32, bool, [u32; 4]); 5] = [
    (8, 0, false, [3, 4, 1, 7]),
    (8, 0, true, [0; 4]),
    (1, 0, true, [1, 1, 8, 8]),
    (1, 0, false, [2, 1, 0, 0]),
    (1, 2, true, [2, 1, 5, 5]),
];

const ON_A_RING: [(u32, u32, bool, [u32; 4]); 4] = [
    (0, 0, false, [1, 1, 4, 4]),
    (0, 0, true, [2, 1, 1, 1]),
    (4, 0, true, [3, 1, 0, 0]),
    (4, 0, false, [2, 1, 3, 3]),
];

const ALONE: [(u32, u32, bool, [u32; 4]); 2] = [
    (0, 0, false, [2, 1, 0, 0]),
    (0, 0, true, [2, 1, 0, 0]),
];

#[test]
fn these_leaves_are_behind_a_side(rt: HostRuntime) -> Result<(), Fail> {
    let alloc = rt.alloc();
    assert!(rt;
        sees_all(&space(alloc), &IN_SPACE)
            && sees_all(&wrapped(alloc, 3), &ON_A_RING)
            && sees_all(&wrapped(alloc, 0), &ALONE)
    );
    Ok(())
}

/// A root that is a leaf, one that is inner, the last child, a child of a leaf, and a place beyond the roots.
const NUMBERS: [(Loc, Option<u32>); 5] = [
    (
        Loc {
            level: 0,
            l1: 1,
            l2: 0,
            l3: 0,
        },
        Some(8),
    ),
    (
        Loc {
            level: 0,
            l1: 0,
            l2: 0,
            l3: 0,
        },
        None,
    ),
    (
        Loc {
            level: 1,
            l1: 1,
            l2: 1,
            l3: 1,
        },
        Some(7),
    ),
    (
        Loc {
            level: 1,
            l1: 2,
            l2: 0,
            l3: 0,
        },
        None,
    ),
    (
        Loc {
            level: 0,
            l1: 2,
            l2: 0,
            l3: 0,
        },
        None,
    ),
];

#[test]
fn leaves_are_found_by_location(rt: HostRuntime) -> Result<(), Fail> {
    assert!(rt; finds(&space(rt.alloc()), &NUMBERS));
    Ok(())
}
