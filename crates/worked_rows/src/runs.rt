use mesh_cli::{Status, mesh_plain};
use mesh_outside::{MemSink, SureDepot, Written};
use std::alloc::{AllocError, Global};
use std::test::Fail as TestFail;
use worked_calls::{
    ONE_BLOCK, ONE_BLOCK_HISTORY, call, call_with, dump, input, is_file, many_fields,
    many_fields_dump, words,
};

/// Overrides of the deck of one block, the cycles that are dumped with their rows, and the printed line.
const RUNS: [(&[&str], &[(u32, &str)], &str); 9] = [
    (
        &[],
        &[(0, "8 0 0 0"), (1, "6 2 0 0"), (2, "5 3 0 0")],
        "done cycles=2 blocks=1 total=8\n",
    ),
    (
        &["parthenon/time/nlim=0"],
        &[(0, "8 0 0 0")],
        "done cycles=0 blocks=1 total=8\n",
    ),
    (
        &["parthenon/time/nlim=3", "whole/dump_every=2"],
        &[(0, "8 0 0 0"), (2, "5 3 0 0"), (3, "4 4 0 0")],
        "done cycles=3 blocks=1 total=8\n",
    ),
    (
        &["whole/nstages=3", "parthenon/time/nlim=1"],
        &[(0, "8 0 0 0"), (1, "4 4 0 0")],
        "done cycles=1 blocks=1 total=8\n",
    ),
    (
        &[
            "parthenon/mesh/ix1_bc=periodic",
            "parthenon/mesh/ox1_bc=periodic",
            "box/0/lo1=3",
            "box/0/hi1=3",
            "parthenon/time/nlim=1",
        ],
        &[(0, "0 0 0 8"), (1, "2 0 0 6")],
        "done cycles=1 blocks=1 total=8\n",
    ),
    (
        &[
            "parthenon/mesh/ix1_bc=inflow",
            "parthenon/mesh/ox1_bc=outflow",
            "field/a/ix1_in=9",
            "box/0/lo1=3",
            "box/0/hi1=3",
            "parthenon/time/nlim=1",
        ],
        &[(0, "0 0 0 8"), (1, "2 0 0 6")],
        "done cycles=1 blocks=1 total=8\n",
    ),
    (
        &[
            "parthenon/mesh/ix1_bc=inflow",
            "parthenon/mesh/ox1_bc=outflow",
            "field/a/ix1_in=8",
            "box/0/lo1=3",
            "box/0/hi1=3",
        ],
        &[(0, "0 0 0 8"), (1, "2 0 0 6"), (2, "4 0 0 5")],
        "done cycles=2 blocks=1 total=9\n",
    ),
    (
        &[
            "parthenon/mesh/ix1_bc=inflow",
            "parthenon/mesh/ox1_bc=outflow",
            "field/a/ix1_in=8",
            "box/0/amount=0",
            "parthenon/time/nlim=1",
        ],
        &[(0, ""), (1, "2 0 0 0")],
        "done cycles=1 blocks=1 total=2\n",
    ),
    (
        &[
            "field/a/v1=0",
            "box/0/amount=4611686018427387903",
            "parthenon/time/nlim=1",
        ],
        &[
            (0, "4611686018427387903 0 0 0"),
            (1, "4611686018427387903 0 0 0"),
        ],
        "done cycles=1 blocks=1 total=4611686018427387903\n",
    ),
];

#[test]
fn a_run_writes_its_dumps_and_one_line(rt: HostRuntime) -> Result<(), TestFail> {
    for (overrides, dumps, line) in RUNS {
        assert!(rt; is_run(rt.alloc(), overrides, dumps, line)?, "{line}");
    }
    Ok(())
}

fn is_run(
    alloc: Global,
    overrides: &[&str],
    dumps: &[(u32, &str)],
    line: &str,
) -> Result<bool, AllocError> {
    let called = call_with(alloc, overrides, ONE_BLOCK.as_bytes())?;
    let written = called.depot.written();
    let mut all = called.ended(Status::Done, line, dumps.len() + 1);
    for (at, (cycle, row)) in dumps.iter().enumerate() {
        all = is_dump(alloc, written, at, *cycle, *row)? && all;
    }
    Ok(all)
}

fn is_dump(
    alloc: Global,
    written: &Written,
    at: usize,
    cycle: u32,
    row: &str,
) -> Result<bool, AllocError> {
    let name = format!(in alloc; "mesh.00000{}.dump", cycle)?;
    let text = dump(alloc, cycle, row)?;
    Ok(is_file(written, at, name.as_str(), text.as_str()))
}

// The history is the last file.
#[test]
fn a_run_writes_its_history_last(rt: HostRuntime) -> Result<(), TestFail> {
    let called = call(rt.alloc(), &["-i", "deck"], ONE_BLOCK.as_bytes())?;
    assert_eq!(rt; called.status, Status::Done);
    assert!(rt; is_file(called.depot.written(), 3, "mesh.hist", ONE_BLOCK_HISTORY));
    Ok(())
}

#[test]
fn each_field_of_a_deck_is_in_its_dumps(rt: HostRuntime) -> Result<(), TestFail> {
    assert!(rt; has_each_field(rt.alloc())?);
    Ok(())
}

fn has_each_field(alloc: Global) -> Result<bool, AllocError> {
    let deck = many_fields(alloc, 256)?;
    let called = call(alloc, &["-d", "out/many", "-i", "deck"], deck.as_bytes())?;
    let written = called.depot.written();
    let first = is_field_dump(alloc, written, 0, "out/many.000000.dump")?;
    let last = is_field_dump(alloc, written, 1, "out/many.000001.dump")?;
    Ok(first && last && called.ended(Status::Done, "done cycles=1 blocks=1 total=32896000\n", 3))
}

fn is_field_dump(
    alloc: Global,
    written: &Written,
    cycle: u32,
    name: &str,
) -> Result<bool, AllocError> {
    let text = many_fields_dump(alloc, cycle, 256)?;
    Ok(is_file(written, cycle as usize, name, text.as_str()))
}

#[test]
fn a_sure_depot_takes_the_run(rt: HostRuntime) -> Result<(), TestFail> {
    assert!(rt; is_taken_surely(rt.alloc())?);
    Ok(())
}

fn is_taken_surely(alloc: Global) -> Result<bool, AllocError> {
    let words = words(alloc, &["-i", "deck"])?;
    let files = input(alloc, "deck", ONE_BLOCK.as_bytes())?;
    let mut depot = SureDepot::new(alloc, files, 5);
    let mut out = MemSink::new(alloc, 0);
    let status = mesh_plain(alloc, words.as_slice(), &mut depot, &mut out);
    Ok(status == Status::Done && depot.written().len() == 4)
}

// The dump that is printed whole where the format is described: 133 bytes.
#[test]
fn the_opening_dump_is_the_printed_one(rt: HostRuntime) -> Result<(), TestFail> {
    let text = dump(rt.alloc(), 0, "8 0 0 0")?;
    assert_eq!(rt; text.len(), 133);
    assert_eq!(rt;
        text.as_str(),
        "parthenon-whole dump 1
cycle 0
dims 1 cells 4 1 1 root 1 1 1
fields 1
a
blocks 1
block 0 level 0 at 0 0 0 zero 0
field a
8 0 0 0
end
"
    );
    Ok(())
}
