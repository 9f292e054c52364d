// Calls of a depot or sink that fail.
use mesh_cli::Status;
use mesh_outside::{Fail, Fails, Written};
use std::alloc::{AllocError, Global};
use std::test::Fail as TestFail;
use worked_calls::{Called, ONE_BLOCK, ONE_BLOCK_HISTORY, call, call_failing, dump, failing};

const ROWS: [&str; 3] = ["8 0 0 0", "6 2 0 0", "5 3 0 0"];

#[test]
fn an_absent_file_is_a_read_fault(rt: HostRuntime) -> Result<(), TestFail> {
    let called = call(rt.alloc(), &["-i", "absent"], ONE_BLOCK.as_bytes())?;
    assert!(rt; called.ended(Status::ReadFault, "read fault\n", 0));
    assert_eq!(rt; called.status.code(), 3);
    Ok(())
}

/// A call that fails, the status with its line, and what is there then: how many whole files, and how
/// many bytes of the next one, where it was begun.
const FAULTS: [(Fail, Status, &str, usize, Option<usize>); 15] = [
    (Fail::Read(1), Status::ReadFault, "read fault\n", 0, None),
    (Fail::Read(2), Status::ReadFault, "read fault\n", 0, None),
    (Fail::Begin(1), Status::WriteFault, "write fault\n", 0, None),
    (Fail::Begin(2), Status::WriteFault, "write fault\n", 1, None),
    (Fail::Begin(3), Status::WriteFault, "write fault\n", 2, None),
    (
        Fail::AppendOf(1),
        Status::WriteFault,
        "write fault\n",
        0,
        Some(66),
    ),
    (
        Fail::AppendOf(2),
        Status::WriteFault,
        "write fault\n",
        1,
        Some(66),
    ),
    (
        Fail::AppendOf(3),
        Status::WriteFault,
        "write fault\n",
        2,
        Some(66),
    ),
    (
        Fail::Finish(1),
        Status::WriteFault,
        "write fault\n",
        0,
        Some(133),
    ),
    (
        Fail::Finish(2),
        Status::WriteFault,
        "write fault\n",
        1,
        Some(133),
    ),
    (
        Fail::Finish(3),
        Status::WriteFault,
        "write fault\n",
        2,
        Some(133),
    ),
    (Fail::Begin(4), Status::WriteFault, "write fault\n", 3, None),
    (
        Fail::AppendOf(4),
        Status::WriteFault,
        "write fault\n",
        3,
        Some(102),
    ),
    (
        Fail::Finish(4),
        Status::WriteFault,
        "write fault\n",
        3,
        Some(204),
    ),
    (
        Fail::Read(3),
        Status::Done,
        "done cycles=2 blocks=1 total=8\n",
        4,
        None,
    ),
];

#[test]
fn a_failing_call_leaves_what_was_written(rt: HostRuntime) -> Result<(), TestFail> {
    for (fail, status, line, whole, part) in FAULTS {
        assert!(rt;
            leaves(rt.alloc(), fail, status, line, whole, part)?,
            "after {whole} files"
        );
    }
    Ok(())
}

fn leaves(
    alloc: Global,
    fail: Fail,
    status: Status,
    line: &str,
    whole: usize,
    part: Option<usize>,
) -> Result<bool, AllocError> {
    let fails = failing(alloc, fail)?;
    let called = call_failing(alloc, &["-i", "deck"], ONE_BLOCK.as_bytes(), fails, 0)?;
    let count = match part {
        Some(_) => whole.saturating_add(1),
        None => whole,
    };
    let mut all = called.ended(status, line, count);
    for at in 0..count {
        all = is_left(alloc, called.depot.written(), at, whole, part)? && all;
    }
    Ok(all)
}

// Whether a file is there as it should be: whole, or so many bytes of it.
fn is_left(
    alloc: Global,
    written: &Written,
    at: usize,
    whole: usize,
    part: Option<usize>,
) -> Result<bool, AllocError> {
    let text = text_of(alloc, at)?;
    let length = match part {
        Some(length) if at >= whole => length,
        _ => text.len(),
    };
    Ok(is_front(written, at, text.as_bytes(), length, at < whole))
}

// Whether a file has the first bytes of a text, so many, and is finished or not.
fn is_front(written: &Written, at: usize, text: &[u8], length: usize, whole: bool) -> bool {
    match written.get(at) {
        Some(file) => {
            let bytes = file.bytes.as_bytes();
            file.whole == whole && bytes.len() == length && text.starts_with(bytes)
        }
        None => false,
    }
}

// The text of a file of the run: a dump, or the history.
fn text_of(alloc: Global, at: usize) -> Result<String, AllocError> {
    match ROWS.get(at) {
        Some(row) => dump(alloc, at.min(2) as u32, *row),
        None => String::from_str(alloc, ONE_BLOCK_HISTORY),
    }
}

/// A dump of 64 by 64 cells of 19 digits, which is more than is appended at once.
const LONG: [&str; 9] = [
    "-i",
    "deck",
    "parthenon/mesh/nx1=64",
    "parthenon/mesh/nx2=64",
    "parthenon/meshblock/nx1=8",
    "parthenon/meshblock/nx2=8",
    "parthenon/time/nlim=0",
    "box/0/hi1=63",
    "box/0/amount=1000000000000000",
];

// The first append of it fails in the middle of its bytes, and the others do not follow.
#[test]
fn a_long_dump_is_appended_in_pieces(rt: HostRuntime) -> Result<(), TestFail> {
    assert!(rt; is_cut_in_a_piece(rt.alloc())?);
    Ok(())
}

fn is_cut_in_a_piece(alloc: Global) -> Result<bool, AllocError> {
    let whole = call(alloc, &LONG, ONE_BLOCK.as_bytes())?;
    let fails = failing(alloc, Fail::AppendOf(1))?;
    let cut = call_failing(alloc, &LONG, ONE_BLOCK.as_bytes(), fails, 0)?;
    Ok(cut.status == Status::WriteFault && is_early_part(&whole, &cut))
}

fn is_early_part(whole: &Called, cut: &Called) -> bool {
    match (whole.depot.written().get(0), cut.depot.written().get(0)) {
        (Some(file), Some(part)) => {
            let bytes = file.bytes.as_bytes();
            let first = part.bytes.as_bytes();
            bytes.len() > 65_536
                && first.len() >= 32_768
                && first.len() < 34_000
                && bytes.starts_with(first)
        }
        _ => false,
    }
}

// The first print fails: all files are there.
#[test]
fn a_failing_print_leaves_all_files(rt: HostRuntime) -> Result<(), TestFail> {
    let alloc = rt.alloc();
    let called = call_failing(
        alloc,
        &["-i", "deck"],
        ONE_BLOCK.as_bytes(),
        Fails::new(alloc),
        1,
    )?;
    assert!(rt; called.ended(Status::PrintFault, "", 4));
    assert_eq!(rt; called.status.code(), 7);
    assert!(rt; are_whole(called.depot.written()));
    Ok(())
}

fn are_whole(written: &Written) -> bool {
    for at in 0..written.len() {
        match written.get(at) {
            Some(file) if file.whole => {}
            _ => return false,
        }
    }
    true
}
