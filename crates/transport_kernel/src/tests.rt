use crate::update;
use block_layout::Layout;
use std::test::Fail;

/// Four cells between their ghosts, of which the first pays 2 to the right, and the ghost above the last pays 2 to the
/// left.
#[test]
fn a_row_moves_both_ways(rt: HostRuntime) -> Result<(), Fail> {
    let layout = Layout {
        dims: 1,
        cells: [4, 1, 1],
    };
    let mut cells = [5, 5, 8, 0, 0, 3, 16, 0];
    update(&layout, &mut cells, &[0, 2, 0, 0, 0], &[0, 0, 0, 0, 2]);
    assert_eq!(rt; cells.as_slice(), [5, 5, 6, 2, 0, 5, 16, 0].as_slice());
    Ok(())
}
