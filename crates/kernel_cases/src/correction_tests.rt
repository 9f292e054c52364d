use crate::corrections::{Finer, Passed, TwoLevels, corrected, replaced};
use crate::letters::Places;
use block_layout::Layout;
use fused_stage::LevelRates;
use morton_order::Side;
use problem_set::Rates;
use std::test::Fail;

const LOW1: Side = Side {
    axis: 0,
    high: false,
};

const HIGH1: Side = Side {
    axis: 0,
    high: true,
};

const LOW2: Side = Side {
    axis: 1,
    high: false,
};

const HIGH2: Side = Side {
    axis: 1,
    high: true,
};

const LOW3: Side = Side {
    axis: 2,
    high: false,
};

/// What passes a block's faces to the right and to the left.
type Lists<'a> = (Places<'a>, Places<'a>);

/// Two finer blocks below a square of four by four cells: what passes the upper faces of each, two by two, is what
/// passes the lower faces of the square. Its other faces stay, and theirs do not count.
const SQUARE: [Passed; 2] = [
    (0, &[(36, 1), (37, 2), (38, 3), (20, 50)], &[(39, 4)]),
    (1, &[(39, 5)], &[(36, 6), (3, 7)]),
];

const SQUARE_BEFORE: Lists = (&[(22, 9), (24, 2), (4, 1)], &[(20, 8)]);

const SQUARE_AFTER: Lists = (
    &[(20, 3), (21, 3), (23, 5), (24, 2), (4, 1)],
    &[(21, 4), (22, 6)],
);

#[test]
fn two_finer_blocks_at_a_side(rt: HostRuntime) -> Result<(), Fail> {
    let layout = Layout {
        dims: 2,
        cells: [4, 4, 1],
    };
    assert!(rt;
        replaced(
            rt.alloc(),
            &layout,
            LOW2,
            &SQUARE,
            SQUARE_BEFORE,
            SQUARE_AFTER
        )?
    );
    Ok(())
}

/// Four finer blocks below a cube of four cells along each axis.
const CUBE: [Passed; 4] = [
    (0, &[], &[(224, 7)]),
    (1, &[(239, 6)], &[]),
    (2, &[(226, 8), (231, 9)], &[]),
    (3, &[(224, 1), (225, 2), (228, 3), (229, 4)], &[(239, 5)]),
];

const CUBE_BEFORE: Lists = (&[(168, 50), (176, 3)], &[(0, 4)]);

const CUBE_AFTER: Lists = (
    &[(167, 6), (169, 17), (170, 10), (176, 3)],
    &[(160, 7), (175, 5), (0, 4)],
);

#[test]
fn four_finer_blocks_at_a_side(rt: HostRuntime) -> Result<(), Fail> {
    let layout = Layout {
        dims: 3,
        cells: [4; 3],
    };
    assert!(rt; replaced(rt.alloc(), &layout, LOW3, &CUBE, CUBE_BEFORE, CUBE_AFTER)?);
    Ok(())
}

/// Cells of a block, the finer blocks behind it, and what passes its faces.
type Levels<'a> = (Places<'a>, &'a [Finer<'a>], Lists<'a>);

/// A finer block on the right of a cell of 5, which counts as 3 and 2 there: two fifths of 2 are nothing, where a fifth of
/// 5 would be 1. And one on the left of a cell of 9: two fifths of its share 5 come to 2, where a fifth of 9 would be 1.
const ROWS: [Levels; 2] = [
    (
        &[(5, 5)],
        &[(HIGH1, 0, &[(2, 9)])],
        (&[], &[(3, 1), (4, 3)]),
    ),
    (
        &[(2, 9)],
        &[(LOW1, 0, &[(5, 4)])],
        (&[(0, 1), (1, 1)], &[(0, 2)]),
    ),
];

/// A fifth moves each way, of finer cells two.
#[test]
fn a_finer_block_beside_a_row(rt: HostRuntime) -> Result<(), Fail> {
    let layout = Layout {
        dims: 1,
        cells: [4, 1, 1],
    };
    let own = LevelRates {
        denominator: 5,
        axes: [Rates { right: 1, left: 1 }; 3],
    };
    let finer = LevelRates {
        denominator: 5,
        axes: [Rates { right: 2, left: 2 }; 3],
    };
    let rates = TwoLevels { own, finer };
    for row in ROWS {
        let (cells, finer, passed) = row;
        assert!(rt; corrected(rt.alloc(), &layout, &rates, cells, finer, passed)?);
    }
    Ok(())
}

/// Two finer blocks on the right of a square and two above it. The cell of 6 at the corner between them has the shares
/// 2 2 1 1: to the right it passes a half of 2 and of 1, upwards twice that of 1. The cell of 13 below passes to the
/// right a half of 3 twice, and upwards, where no finer block is, a quarter of 13.
const CORNER: Levels = (
    &[(45, 6), (21, 13)],
    &[
        (HIGH1, 0, &[]),
        (HIGH1, 1, &[]),
        (HIGH2, 0, &[]),
        (HIGH2, 1, &[]),
    ],
    (&[(4, 2), (19, 1), (27, 3)], &[]),
);

/// A quarter moves to the right and upwards, of finer cells two.
#[test]
fn finer_blocks_around_a_corner(rt: HostRuntime) -> Result<(), Fail> {
    let layout = Layout {
        dims: 2,
        cells: [4, 4, 1],
    };
    let own = LevelRates {
        denominator: 4,
        axes: [Rates { right: 1, left: 0 }; 3],
    };
    let finer = LevelRates {
        denominator: 4,
        axes: [Rates { right: 2, left: 0 }; 3],
    };
    let rates = TwoLevels { own, finer };
    let (cells, finer, passed) = CORNER;
    assert!(rt; corrected(rt.alloc(), &layout, &rates, cells, finer, passed)?);
    Ok(())
}
