use crate::reactions::{Expected, both_react, one_reacts, one_reacts_or_gives_up};
use block_layout::Layout;
use std::test::Fail;

/// Totals of the first field in a row of four cells between two ghosts at each side, what is left of them, the new
/// buffer of the second field where there is one, and how much is made.
const ALONE: [([u64; 8], [u64; 8], &[u64], u128); 5] = [
    ([0; 8], [0; 8], &[], 0),
    ([0, 0, 9, 0, 0, 0, 0, 0], [0, 0, 9, 0, 0, 0, 0, 0], &[], 0),
    (
        [0, 0, 10, 0, 0, 0, 0, 0],
        [0, 0, 9, 0, 0, 0, 0, 0],
        &[0, 0, 1, 0, 0, 0, 0, 0],
        1,
    ),
    (
        [50, 50, 0, 0, 0, 9, 50, 50],
        [50, 50, 0, 0, 0, 9, 50, 50],
        &[],
        0,
    ),
    (
        [0, 0, 9, 10, 25, 100, 30, 0],
        [0, 0, 9, 9, 23, 90, 30, 0],
        &[0, 0, 0, 1, 2, 10, 0, 0],
        13,
    ),
];

/// A tenth of the first field becomes the second in each cell; a buffer is made where there was none and some is made.
#[test]
fn a_field_is_made(rt: HostRuntime) -> Result<(), Fail> {
    let layout = Layout {
        dims: 1,
        cells: [4, 1, 1],
    };
    for row in ALONE {
        let (first, left, new, made) = row;
        let expected = Expected {
            first: &left,
            second: &[],
            new,
            made,
        };
        assert!(rt; one_reacts(rt.alloc(), &layout, &first, &expected)?);
    }
    Ok(())
}

/// Totals of both fields before and after, and how much is made.
const BESIDE: [([u64; 8], [u64; 8], [u64; 8], [u64; 8], u128); 2] = [
    (
        [0, 0, 9, 0, 0, 0, 0, 0],
        [0, 0, 3, 0, 0, 0, 0, 4],
        [0, 0, 9, 0, 0, 0, 0, 0],
        [0, 0, 3, 0, 0, 0, 0, 4],
        0,
    ),
    (
        [0, 0, 20, 0, 0, 10, 0, 0],
        [0, 0, 3, 50, 0, 0, 0, 4],
        [0, 0, 18, 0, 0, 9, 0, 0],
        [0, 0, 5, 50, 0, 1, 0, 4],
        3,
    ),
];

/// No buffer is made of a field that has one.
#[test]
fn a_field_gains(rt: HostRuntime) -> Result<(), Fail> {
    let layout = Layout {
        dims: 1,
        cells: [4, 1, 1],
    };
    for row in BESIDE {
        let (first, second, left, gained, made) = row;
        let expected = Expected {
            first: &left,
            second: &gained,
            new: &[],
            made,
        };
        assert!(rt; both_react(rt.alloc(), &layout, &first, &second, &expected)?);
    }
    Ok(())
}

/// A reaction for which memory is refused in its midst leaves neither buffers nor flows. Memory is refused by the
/// caller of this test alone, as `bench/refused_reactions.sh` does; with ample memory the reaction leaves what is
/// expected.
#[test]
fn want_of_memory_gives_up_the_buffers(rt: HostRuntime) -> Result<(), Fail> {
    let layout = Layout {
        dims: 1,
        cells: [4, 1, 1],
    };
    let (first, left, new, made) = ALONE[4];
    let expected = Expected {
        first: &left,
        second: &[],
        new,
        made,
    };
    assert!(rt; one_reacts_or_gives_up(rt.alloc(), &layout, &first, &expected));
    Ok(())
}
