// Decks that are refused, and their lines.
use mesh_cli::Status;
use std::alloc::{AllocError, Global};
use std::test::Fail as TestFail;
use worked_calls::{ONE_BLOCK, call, call_with, many_static_boxes};

/// Overrides of the deck of one block, and the lines that refuse it.
const REFUSED: [(&[&str], &str); 17] = [
    (
        &["parthenon/mesh/nx1=99999999999999999999"],
        "refused: value parthenon/mesh nx1\n",
    ),
    (
        &["parthenon/mesh/nx1=9999999999999999999"],
        "refused: limit parthenon/mesh nx1 = 9999999999999999999\n",
    ),
    (
        &["parthenon/time/nlim=-1"],
        "refused: value parthenon/time nlim\n",
    ),
    (
        &["parthenon/sparse/alloc_threshold=1e-5"],
        "refused: value parthenon/sparse alloc_threshold\n",
    ),
    (
        &["parthenon/mesh/nx1=262148", "parthenon/meshblock/nx1=4"],
        "refused: limit parthenon/meshblock blocks = 65537\n",
    ),
    (
        &["parthenon/mesh/nx1=8", "parthenon/meshblock/nx1=6"],
        "refused: value parthenon/meshblock nx1\n",
    ),
    (
        &[
            "parthenon/mesh/refinement=static",
            "parthenon/mesh/numlevel=2",
            "static/s/level=2",
        ],
        "refused: limit static/s level = 2\n",
    ),
    (&["field/a/v1=5"], "refused: rates a sum 5\n"),
    (
        &["field/a/v1=-1000000001"],
        "refused: limit field/a v1 = -1000000001\n",
    ),
    (
        &[
            "field/a/v1=0",
            "box/0/amount=4611686018427387903",
            "box/1/field=a",
            "box/1/lo1=1",
            "box/1/hi1=1",
            "box/1/amount=1",
        ],
        "refused: bound 4611686018427387904\n",
    ),
    (
        &["field/a/flags=Cell,WithFluxes"],
        "refused: field flags a\n",
    ),
    (
        &[
            "field/a/flags=Cell,Independent,Sparse",
            "field/a/ids=1",
            "field/a_1/v1=0",
        ],
        "refused: field twice a_1\n",
    ),
    (&["box/1/field=a"], "refused: missing box/1 amount\n"),
    (&["whole/nstages=1", "b=5"], "refused: override 2\n"),
    (&["--", "-n"], "refused: override 1\n"),
    (
        &["parthenon/mesh/nx3=4"],
        "refused: limit parthenon/mesh nx3 = 4\n",
    ),
    (
        &["field/a/order=2", "field/a/v1=3"],
        "refused: rates a sum 3\n",
    ),
];

#[test]
fn refused_decks_have_their_lines(rt: HostRuntime) -> Result<(), TestFail> {
    for (overrides, line) in REFUSED {
        assert!(rt; is_refused(rt.alloc(), overrides, line)?, "{line}");
    }
    Ok(())
}

fn is_refused(alloc: Global, overrides: &[&str], line: &str) -> Result<bool, AllocError> {
    let called = call_with(alloc, overrides, ONE_BLOCK.as_bytes())?;
    Ok(called.status.code() == 2 && called.ended(Status::Refused, line, 0))
}

/// Whole files, and the lines that refuse them.
const REFUSED_FILES: [(&[u8], &str); 4] = [
    (b"", "refused: missing parthenon/mesh nx1\n"),
    (b"nx1 = 4\n<a>\n", "refused: line 1 no block\n"),
    (b"<a>\n<a", "refused: line 2 syntax\n"),
    (b"<a>\n\xff", "refused: byte 4 not text\n"),
];

#[test]
fn refused_files_have_their_lines(rt: HostRuntime) -> Result<(), TestFail> {
    for (deck, line) in REFUSED_FILES {
        assert!(rt; is_refused_file(rt.alloc(), deck, line)?, "{line}");
    }
    Ok(())
}

fn is_refused_file(alloc: Global, deck: &[u8], line: &str) -> Result<bool, AllocError> {
    let called = call(alloc, &["-i", "deck", "no/word=1"], deck)?;
    Ok(called.ended(Status::Refused, line, 0))
}

#[test]
fn long_files_have_their_lines(rt: HostRuntime) -> Result<(), TestFail> {
    assert!(rt; are_refused_long(rt.alloc())?);
    Ok(())
}

fn are_refused_long(alloc: Global) -> Result<bool, AllocError> {
    let boxes = many_static_boxes(alloc, 257)?;
    let headers = vec![in alloc; b'<'; 1_048_576]?;
    let blanks = vec![in alloc; b' '; 1_048_577]?;
    let counted = is_refused_file(
        alloc,
        boxes.as_bytes(),
        "refused: limit static count = 257\n",
    )?;
    let fits = is_refused_file(alloc, headers.as_slice(), "refused: line 1 syntax\n")?;
    let longer = is_refused_file(alloc, blanks.as_slice(), "refused: too long\n")?;
    Ok(counted && fits && longer)
}
