use crate::calls::{fused, prolonged, restricted, slopes};
use block_layout::Layout;
use fused_stage::LevelRates;
use problem_set::Rates;
use std::test::Fail;

/// Dimensions, coarse cells along each axis, their totals, and those of the fine cells in them.
const SHARES: [(u32, [u32; 3], &[u64], &[u64]); 8] = [
    (1, [2, 1, 1], &[5, 0], &[3, 2, 0, 0]),
    (2, [1, 1, 1], &[7], &[2, 2, 2, 1]),
    (2, [1, 1, 1], &[6], &[2, 2, 1, 1]),
    (2, [1, 1, 1], &[3], &[1, 1, 1, 0]),
    (2, [1, 1, 1], &[0], &[0, 0, 0, 0]),
    (2, [2, 1, 1], &[5, 2], &[2, 1, 1, 1, 1, 1, 0, 0]),
    (3, [1, 1, 1], &[11], &[2, 2, 2, 1, 1, 1, 1, 1]),
    (
        3,
        [1, 1, 2],
        &[3, 8],
        &[1, 1, 1, 0, 0, 0, 0, 0, 1, 1, 1, 1, 1, 1, 1, 1],
    ),
];

#[test]
fn cells_are_shared_and_added_up(rt: HostRuntime) -> Result<(), Fail> {
    for row in SHARES {
        let (dims, n, coarse, fine) = row;
        assert!(rt; prolonged(rt.alloc(), dims, n, coarse, fine)?);
        assert!(rt; restricted(rt.alloc(), dims, n, fine, coarse)?);
    }
    Ok(())
}

/// Closed sides, and the cells of a row between two ghosts at each side that are not empty, before and after.
const ROWS: [([bool; 6], &[(usize, u64)], &[(usize, u64)]); 3] = [
    (
        [false; 6],
        &[(2, 8), (5, 3), (6, 16)],
        &[(2, 5), (3, 2), (5, 5)],
    ),
    (
        [true, false, false, false, false, false],
        &[(2, 8), (5, 3), (6, 16)],
        &[(2, 6), (3, 2), (5, 5)],
    ),
    (
        [false, true, false, false, false, false],
        &[(2, 8), (5, 3), (6, 16)],
        &[(2, 5), (3, 2), (5, 3)],
    ),
];

/// A quarter moves to the right and an eighth to the left.
#[test]
fn a_row_moves_without_lists(rt: HostRuntime) -> Result<(), Fail> {
    let layout = Layout {
        dims: 1,
        cells: [4, 1, 1],
    };
    let along = Rates { right: 2, left: 1 };
    let rates = LevelRates {
        denominator: 8,
        axes: [along; 3],
    };
    for row in ROWS {
        let (closed, before, after) = row;
        assert!(rt; fused(rt.alloc(), &layout, &rates, closed, before, after)?);
    }
    Ok(())
}

/// The same of a square of four by four cells: one in the middle, and one at a closed high side of x2.
const SQUARES: [([bool; 6], &[(usize, u64)], &[(usize, u64)]); 2] = [
    (
        [false; 6],
        &[(27, 100)],
        &[(26, 5), (27, 70), (28, 10), (19, 5), (35, 10)],
    ),
    (
        [false, false, false, true, false, false],
        &[(43, 100)],
        &[(42, 5), (43, 80), (44, 10), (35, 5)],
    ),
];

/// A tenth moves to the right and a twentieth to the left along both axes.
#[test]
fn a_square_moves_without_lists(rt: HostRuntime) -> Result<(), Fail> {
    let layout = Layout {
        dims: 2,
        cells: [4, 4, 1],
    };
    let along = Rates { right: 10, left: 5 };
    let rates = LevelRates {
        denominator: 100,
        axes: [along; 3],
    };
    for row in SQUARES {
        let (closed, before, after) = row;
        assert!(rt; fused(rt.alloc(), &layout, &rates, closed, before, after)?);
    }
    Ok(())
}

/// The same of a cube: a cell at its low corner with all sides open, and with the low ones closed.
const CUBES: [([bool; 6], &[(usize, u64)], &[(usize, u64)]); 2] = [
    (
        [false; 6],
        &[(146, 100)],
        &[(146, 55), (147, 10), (154, 10), (210, 10)],
    ),
    (
        [true, false, true, false, true, false],
        &[(146, 100)],
        &[(146, 70), (147, 10), (154, 10), (210, 10)],
    ),
];

#[test]
fn a_cube_moves_without_lists(rt: HostRuntime) -> Result<(), Fail> {
    let layout = Layout {
        dims: 3,
        cells: [4; 3],
    };
    let along = Rates { right: 10, left: 5 };
    let rates = LevelRates {
        denominator: 100,
        axes: [along; 3],
    };
    for row in CUBES {
        let (closed, before, after) = row;
        assert!(rt; fused(rt.alloc(), &layout, &rates, closed, before, after)?);
    }
    Ok(())
}

/// Cells of a row with two ghosts at each side, and what passes its faces to the right and to the left.
const SLOPES: [([u64; 8], [u64; 5], [u64; 5]); 3] = [
    ([0, 0, 4, 8, 2, 6, 6, 6], [0, 1, 2, 0, 1], [0, 2, 0, 1, 1]),
    (
        [0, 4, 8, 12, 16, 20, 24, 28],
        [1, 2, 3, 4, 5],
        [1, 2, 3, 4, 5],
    ),
    ([9; 8], [2; 5], [2; 5]),
];

/// A quarter of what a cell counts for at the face moves to each side, by the second order.
#[test]
fn slopes_are_limited(rt: HostRuntime) -> Result<(), Fail> {
    let layout = Layout {
        dims: 1,
        cells: [4, 1, 1],
    };
    let along = Rates { right: 1, left: 1 };
    let rates = LevelRates {
        denominator: 4,
        axes: [along; 3],
    };
    for row in SLOPES {
        let (cells, right, left) = row;
        assert!(rt; slopes(&layout, &rates, [false; 6], &cells, &right, &left));
    }
    Ok(())
}

/// Half of each cell moves to the right in a row with closed sides. By the second order the cell of 4, between nothing
/// and 8, counts for 6.
#[test]
fn a_row_moves_by_both_orders(rt: HostRuntime) -> Result<(), Fail> {
    let layout = Layout {
        dims: 1,
        cells: [4, 1, 1],
    };
    let along = Rates { right: 1, left: 0 };
    let rates = LevelRates {
        denominator: 2,
        axes: [along; 3],
    };
    let closed = [true, true, false, false, false, false];
    let before = [(2, 4), (3, 8)];
    let after = [(2, 2), (3, 6), (4, 4)];
    assert!(rt; fused(rt.alloc(), &layout, &rates, closed, &before, &after)?);
    let cells = [0, 0, 4, 8, 0, 0, 0, 0];
    assert!(rt; slopes(&layout, &rates, closed, &cells, &[0, 3, 4, 0, 0], &[0; 5]));
    Ok(())
}
