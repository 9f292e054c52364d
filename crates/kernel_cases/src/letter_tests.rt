use crate::letters::{Places, Sender, unfilled};
use block_layout::Layout;
use ghost_buffers::How;
use morton_order::Side;
use std::alloc::Global;
use std::process::Abort;
use std::test::Fail;

/// A side of the receiver, the blocks behind it, and the receiver's cells before and after.
type Letters<'a> = (Side, &'a [Sender<'a>], Places<'a>, Places<'a>);

const LOW1: Side = Side {
    axis: 0,
    high: false,
};

const HIGH1: Side = Side {
    axis: 0,
    high: true,
};

const LOW2: Side = Side {
    axis: 1,
    high: false,
};

const HIGH2: Side = Side {
    axis: 1,
    high: true,
};

const LOW3: Side = Side {
    axis: 2,
    high: false,
};

fn check_all(
    rt: &impl Abort,
    alloc: Global,
    layout: &Layout,
    cases: &[Letters],
) -> Result<(), Fail> {
    for (side, senders, before, after) in cases {
        assert!(rt; unfilled(alloc, layout, *side, senders, before, after)?);
    }
    Ok(())
}

/// Four cells between two ghosts at each side: two layers of the same level; four finer cells as the sums of each two;
/// and one coarser cell, of 5, as the shares 3 and 2.
const ROWS: [Letters; 4] = [
    (
        LOW1,
        &[(How::Same, 0, &[(3, 6), (4, 7), (5, 9)])],
        &[(0, 1), (2, 4), (6, 8)],
        &[(0, 7), (1, 9), (2, 4), (6, 8)],
    ),
    (
        HIGH1,
        &[(How::Finer, 0, &[(2, 1), (3, 2), (4, 3), (5, 4)])],
        &[(5, 5)],
        &[(5, 5), (6, 3), (7, 7)],
    ),
    (
        LOW1,
        &[(How::Coarser, 0, &[(4, 8), (5, 5)])],
        &[],
        &[(0, 3), (1, 2)],
    ),
    (
        HIGH1,
        &[(How::Coarser, 0, &[(2, 5), (3, 8)])],
        &[(6, 9), (7, 9)],
        &[(6, 3), (7, 2)],
    ),
];

#[test]
fn ghosts_of_a_row(rt: HostRuntime) -> Result<(), Fail> {
    let layout = Layout {
        dims: 1,
        cells: [4, 1, 1],
    };
    check_all(&rt, rt.alloc(), &layout, &ROWS)
}

/// Four by four cells, eight by eight with ghosts: two finer blocks behind the high side of x1, each over its half; one
/// over the upper half of the low side of x2; and coarser blocks, each of which the receiver covers a half. Ghosts at
/// the corners and the other half of a side stay.
const SQUARES: [Letters; 5] = [
    (
        HIGH1,
        &[
            (
                How::Finer,
                0,
                &[(18, 1), (19, 2), (26, 3), (27, 4), (36, 5)],
            ),
            (How::Finer, 1, &[(43, 6), (21, 7)]),
        ],
        &[(14, 8), (21, 3), (30, 9)],
        &[(14, 8), (21, 3), (22, 10), (31, 5), (46, 6), (39, 7)],
    ),
    (
        LOW2,
        &[(How::Finer, 1, &[(45, 9), (18, 4)])],
        &[(2, 1), (12, 6)],
        &[(2, 1), (13, 9), (4, 4)],
    ),
    (
        LOW1,
        &[(How::Coarser, 0, &[(21, 5), (29, 3), (37, 7), (45, 6)])],
        &[],
        &[
            (16, 2),
            (17, 1),
            (24, 1),
            (25, 1),
            (32, 1),
            (33, 1),
            (40, 1),
        ],
    ),
    (
        LOW1,
        &[(How::Coarser, 1, &[(21, 5), (29, 3), (37, 7), (45, 6)])],
        &[(8, 5), (18, 5)],
        &[
            (8, 5),
            (18, 5),
            (16, 2),
            (17, 2),
            (24, 2),
            (25, 1),
            (32, 2),
            (33, 2),
            (40, 1),
            (41, 1),
        ],
    ),
    (
        LOW2,
        &[(How::Coarser, 1, &[(42, 9), (44, 6), (45, 5)])],
        &[],
        &[
            (2, 2),
            (3, 2),
            (10, 1),
            (11, 1),
            (4, 2),
            (5, 1),
            (12, 1),
            (13, 1),
        ],
    ),
];

#[test]
fn ghosts_of_a_square(rt: HostRuntime) -> Result<(), Fail> {
    let layout = Layout {
        dims: 2,
        cells: [4, 4, 1],
    };
    check_all(&rt, rt.alloc(), &layout, &SQUARES)
}

/// Four by four by four cells: four finer blocks behind the high side of x2, each over a quarter of it; and a coarser one
/// below, of which the receiver covers the quarter that is low along x1 and high along x2: its cell of 11 as the shares
/// 2 2 2 1 1 1 1 1.
const CUBES: [Letters; 2] = [
    (
        HIGH2,
        &[
            (How::Finer, 0, &[(146, 1), (147, 2), (155, 3), (219, 4)]),
            (How::Finer, 1, &[(365, 5)]),
            (How::Finer, 2, &[(146, 6)]),
            (How::Finer, 3, &[(146, 7), (162, 8)]),
        ],
        &[],
        &[(178, 10), (253, 5), (306, 6), (308, 7), (316, 8)],
    ),
    (
        LOW3,
        &[(How::Coarser, 2, &[(355, 11), (338, 0), (290, 9)])],
        &[],
        &[
            (20, 2),
            (21, 2),
            (28, 2),
            (29, 1),
            (84, 1),
            (85, 1),
            (92, 1),
            (93, 1),
        ],
    ),
];

#[test]
fn ghosts_of_a_cube(rt: HostRuntime) -> Result<(), Fail> {
    let layout = Layout {
        dims: 3,
        cells: [4; 3],
    };
    check_all(&rt, rt.alloc(), &layout, &CUBES)
}
