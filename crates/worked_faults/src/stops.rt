// Runs that stop where a tree has too many leaves.
use mesh_cli::Status;
use std::test::Fail as TestFail;
use worked_calls::{FULL_TREE, ONE_BLOCK, call, call_with};

// 65,536 leaves are there at the start, and one is to be refined: the opening dump alone is written.
#[test]
fn a_run_stops_at_the_cycle_whose_tree_is_too_large(rt: HostRuntime) -> Result<(), TestFail> {
    let called = call(rt.alloc(), &["-i", "deck"], FULL_TREE.as_bytes())?;
    assert!(rt;
        called.ended(
            Status::TooManyBlocks,
            "too many blocks at cycle 1: 65539\n",
            1
        )
    );
    assert_eq!(rt; called.status.code(), 6);
    let file = called.depot.written().get(0).ok_or("a file is missing")?;
    assert!(rt; file.whole);
    assert_eq!(rt; file.name.as_str(), "mesh.000000.dump");
    Ok(())
}

// 256 by 256 roots, of which one is refined at the start.
#[test]
fn a_run_does_not_start_on_a_tree_that_is_too_large(rt: HostRuntime) -> Result<(), TestFail> {
    let words = [
        "parthenon/mesh/nx1=1024",
        "parthenon/mesh/nx2=1024",
        "parthenon/mesh/refinement=static",
        "parthenon/mesh/numlevel=2",
        "parthenon/meshblock/nx1=4",
        "parthenon/meshblock/nx2=4",
        "static/s/level=1",
        "static/s/hi1=0",
        "static/s/hi2=0",
    ];
    let called = call_with(rt.alloc(), &words, ONE_BLOCK.as_bytes())?;
    assert!(rt; called.ended(Status::TooManyBlocks, "too many blocks at start\n", 0));
    Ok(())
}
