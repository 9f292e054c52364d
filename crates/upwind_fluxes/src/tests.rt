use crate::{LevelRates, fluxes};
use block_layout::Layout;
use problem_set::Rates;
use std::test::Fail;

/// Four cells between their ghosts, with 8 in the first one and 3 in the last: a quarter moves to the right and an
/// eighth to the left, and the low side is closed.
#[test]
fn a_row_pays_both_ways(rt: HostRuntime) -> Result<(), Fail> {
    let layout = Layout {
        dims: 1,
        cells: [4, 1, 1],
    };
    let along = Rates { right: 2, left: 1 };
    let still = Rates { right: 0, left: 0 };
    let rates = LevelRates {
        denominator: 8,
        axes: [along, still, still],
    };
    let closed = [true, false, false, false, false, false];
    let cells = [0, 0, 8, 0, 0, 3, 16, 0];
    let mut right = [9; 5];
    let mut left = [9; 5];
    fluxes(&layout, &rates, closed, &cells, &mut right, &mut left);
    assert_eq!(rt; right.as_slice(), [0, 2, 0, 0, 0].as_slice());
    assert_eq!(rt; left.as_slice(), [0, 0, 0, 0, 2].as_slice());
    Ok(())
}
