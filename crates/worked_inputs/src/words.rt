use mesh_cli::Status;
use std::alloc::{AllocError, Global};
use std::test::Fail as TestFail;
use worked_calls::{ONE_BLOCK, call};

// Words that are refused, and their lines; nothing is written.
#[test]
fn refused_words_have_their_lines(rt: HostRuntime) -> Result<(), TestFail> {
    let none: [&str; 0] = [];
    let rows: [(&[&str], &str); 18] = [
        (&none, "usage: no input\n"),
        (&["-n"], "usage: no input\n"),
        (&["-i"], "usage: words\n"),
        (&["-x"], "usage: words\n"),
        (&["--input", "deck"], "usage: words\n"),
        (&["-i", "-deck"], "usage: words\n"),
        (&["-i", "deck", "-i", "deck"], "usage: words\n"),
        (&["-n", "-i", "deck", "-n"], "usage: words\n"),
        (&["-g", "7", "-i", "deck"], "usage: two inputs\n"),
        (&["-i", "deck", "-l"], "usage: -l\n"),
        (&["-w", "0", "-i", "f"], "usage: -w\n"),
        (&["-w", "65", "-i", "f"], "usage: -w\n"),
        (&["-w", "1x", "-i", "f"], "usage: -w\n"),
        (&["-w", "00000000001", "-i", "f"], "usage: -w\n"),
        (&["-g", "2147483648"], "usage: -g\n"),
        (&["-i", "deck", "-d="], "usage: -d\n"),
        (&["-i", "deck", "-t"], "usage: not built\n"),
        (&["-w", "0", "-d=", "-i", "f"], "usage: -w\n"),
    ];
    for (words, line) in rows {
        assert!(rt; is_refused(rt.alloc(), words, line)?, "{line}");
    }
    Ok(())
}

fn is_refused(alloc: Global, words: &[&str], line: &str) -> Result<bool, AllocError> {
    let called = call(alloc, words, ONE_BLOCK.as_bytes())?;
    Ok(called.status.code() == 1 && called.ended(Status::Usage, line, 0))
}

// Other ways to write the same words.
#[test]
fn accepted_words_run_the_deck(rt: HostRuntime) -> Result<(), TestFail> {
    let rows: [&[&str]; 5] = [
        &["-i=deck", "parthenon/time/nlim=0"],
        &["-ideck", "parthenon/time/nlim=0"],
        &[
            "parthenon/time/nlim=1",
            "-i",
            "deck",
            "parthenon/time/nlim=0",
        ],
        &[
            "-i",
            "deck",
            "-w",
            "64",
            "-d",
            "mesh",
            "--",
            "parthenon/time/nlim=0",
        ],
        &["-w", "0000000001", "-i", "deck", "parthenon/time/nlim=0"],
    ];
    for (at, words) in rows.iter().enumerate() {
        assert!(rt; is_run(rt.alloc(), words)?, "at {at}");
    }
    Ok(())
}

fn is_run(alloc: Global, words: &[&str]) -> Result<bool, AllocError> {
    let called = call(alloc, words, ONE_BLOCK.as_bytes())?;
    Ok(called.ended(Status::Done, "done cycles=0 blocks=1 total=8\n", 2))
}
