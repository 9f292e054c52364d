// The files that a run gives before its end and at it, beside those that the program writes.
use dense_model::{DenseFault, DenseRun};
use input_file::parse;
use mesh_outside::{File, Files, Gained};
use problem_set::{Problem, read_problem};
use std::alloc::Global;
use std::test::Fail as TestFail;
use worked_calls::{ADAPTIVE_ROW, REACTION, call};

// Of the adaptive row with its two dumps and the history there is one dump after two of six cycles.
#[test]
fn a_run_gives_its_files_so_far(rt: HostRuntime) -> Result<(), TestFail> {
    let alloc = rt.alloc();
    for (deck, cycles, count) in [
        (ADAPTIVE_ROW, 0, 1),
        (ADAPTIVE_ROW, 2, 1),
        (ADAPTIVE_ROW, 6, 3),
        (REACTION, 1, 3),
    ] {
        assert!(rt; gives_files(alloc, deck, cycles, count)?, "after {cycles}");
    }
    Ok(())
}

fn gives_files(alloc: Global, text: &str, cycles: u32, count: usize) -> Result<bool, TestFail> {
    let deck = parse(alloc, text.as_bytes())?;
    let problem = read_problem(alloc, &deck)?;
    let files = files_after(alloc, &problem, cycles)?;
    Ok(files.len() == count && are_written(alloc, text, &files)?)
}

fn files_after(alloc: Global, problem: &Problem, cycles: u32) -> Result<Files, DenseFault> {
    let mut run = DenseRun::start(alloc, problem)?;
    for _ in 0..cycles {
        if !run.is_finished() {
            run.cycle()?;
        }
    }
    let files = run.files("mesh")?;
    Ok(files)
}

// Whether these files are the first that the program writes.
fn are_written(alloc: Global, text: &str, files: &Files) -> Result<bool, TestFail> {
    let called = call(alloc, &["-i", "deck"], text.as_bytes())?;
    for at in 0..files.len() {
        let (Some(file), Some(gained)) = (files.get(at), called.depot.written().get(at)) else {
            return Ok(false);
        };
        if !is_same(file, gained) {
            return Ok(false);
        }
    }
    Ok(true)
}

fn is_same(file: &File, gained: &Gained) -> bool {
    file.name.as_str() == gained.name.as_str() && file.bytes.as_bytes() == gained.bytes.as_bytes()
}
