use crate::slope_fluxes;
use block_layout::Layout;
use problem_set::Rates;
use std::test::Fail;
use upwind_fluxes::LevelRates;

/// Four cells between their ghosts, with 4 in the first one and 8 in the second, and half of each cell moves to the
/// right: the first cell counts for 6 and pays 3, the second, which is a crest, counts for itself and pays 4.
#[test]
fn a_rise_pays_more(rt: HostRuntime) -> Result<(), Fail> {
    let layout = Layout {
        dims: 1,
        cells: [4, 1, 1],
    };
    let along = Rates { right: 1, left: 0 };
    let still = Rates { right: 0, left: 0 };
    let rates = LevelRates {
        denominator: 2,
        axes: [along, still, still],
    };
    let cells = [0, 0, 4, 8, 0, 0, 0, 0];
    let mut right = [9; 5];
    let mut left = [9; 5];
    slope_fluxes(&layout, &rates, [false; 6], &cells, &mut right, &mut left);
    assert_eq!(rt; right.as_slice(), [0, 3, 4, 0, 0].as_slice());
    assert_eq!(rt; left.as_slice(), [0, 0, 0, 0, 0].as_slice());
    Ok(())
}
