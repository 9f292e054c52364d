// Runs over trees of any kind, by the line that they print and by lines of their files.
use crate::pool_rows::POOLS;
use crate::rule_rows::RULES;
use crate::tree_rows::TREES;
use mesh_cli::Status;
use mesh_outside::Written;
use std::alloc::{AllocError, Global};
use std::process::Abort;
use std::test::Fail as TestFail;
use worked_calls::{call, call_with};

/// A file's name, and lines that stand in it in this order.
pub type Lines = (&'static str, &'static [&'static str]);

/// A deck, overrides, the printed line, how many files there are, and lines of some of them.
pub type Row = (
    &'static str,
    &'static [&'static str],
    &'static str,
    usize,
    &'static [Lines],
);

#[test]
fn runs_on_trees_have_their_files(rt: HostRuntime) -> Result<(), TestFail> {
    check_rows(&rt, rt.alloc(), &TREES)
}

#[test]
fn runs_with_pools_have_their_files(rt: HostRuntime) -> Result<(), TestFail> {
    check_rows(&rt, rt.alloc(), &POOLS)
}

#[test]
fn runs_by_other_rules_have_their_files(rt: HostRuntime) -> Result<(), TestFail> {
    check_rows(&rt, rt.alloc(), &RULES)
}

fn check_rows(rt: &impl Abort, alloc: Global, rows: &[Row]) -> Result<(), TestFail> {
    for (at, row) in rows.iter().enumerate() {
        assert!(rt; is_row(alloc, row)?, "at {at}");
    }
    Ok(())
}

fn is_row(alloc: Global, row: &Row) -> Result<bool, AllocError> {
    let (deck, overrides, line, count, files) = row;
    let called = call_with(alloc, overrides, deck.as_bytes())?;
    Ok(called.ended(Status::Done, line, *count) && have_lines(called.depot.written(), files))
}

fn have_lines(written: &Written, files: &[Lines]) -> bool {
    for (name, lines) in files {
        let Some(bytes) = bytes_of(written, name) else {
            return false;
        };
        if !has_lines(bytes, lines) {
            return false;
        }
    }
    true
}

// The bytes of a finished file.
fn bytes_of<'a>(written: &'a Written, name: &str) -> Option<&'a [u8]> {
    for at in 0..written.len() {
        let file = written.get(at)?;
        if file.whole && file.name.as_str() == name {
            return Some(file.bytes.as_bytes());
        }
    }
    None
}

// Whether these lines stand in a text, in this order.
fn has_lines(text: &[u8], lines: &[&str]) -> bool {
    let mut found = 0;
    for line in text.split(|byte| *byte == b'\n') {
        if found < lines.len() && line == lines[found].as_bytes() {
            found += 1;
        }
    }
    found == lines.len()
}

// The deck of a seed, twice, with one worker and with seven.
#[test]
fn the_deck_of_a_seed_has_one_outcome(rt: HostRuntime) -> Result<(), TestFail> {
    assert!(rt; is_the_same_with_seven(rt.alloc())?);
    Ok(())
}

fn is_the_same_with_seven(alloc: Global) -> Result<bool, AllocError> {
    let one = call(alloc, &["-g", "7"], b"<")?;
    let seven = call(alloc, &["-g", "7", "-w", "7"], b"<")?;
    Ok(
        one.status == Status::Done
            && one.out.printed().ends_with(b" total=32112\n")
            && one.out.printed() == seven.out.printed()
            && same_files(one.depot.written(), seven.depot.written()),
    )
}

fn same_files(some: &Written, others: &Written) -> bool {
    for at in 0..some.len() {
        let (Some(file), Some(other)) = (some.get(at), others.get(at)) else {
            return false;
        };
        if file.name.as_str() != other.name.as_str()
            || file.bytes.as_bytes() != other.bytes.as_bytes()
        {
            return false;
        }
    }
    some.len() == others.len()
}
