//! The program: real files, standard output and the words after the program's name, around the one
//! call that does the work.
#![tactic(auto)]

use mesh_cli::{Outcome, mesh_plain, report};
use mesh_outside::{FileDepot, StdSink};
use mesh_words::UsageFault;
use std::process::ExitCode;
use std::rt::Env;
use std::{env, io};

fn main(rt: HostRuntime) -> ExitCode {
    let mut out = StdSink::new(&rt);
    let status = match words(&rt) {
        Ok(words) => {
            let mut depot = FileDepot::new(&rt);
            mesh_plain(rt.alloc(), words.as_slice(), &mut depot, &mut out)
        }
        Err(error) => report(rt.alloc(), &without_words(&error), &mut out),
    };
    ExitCode::from(status.code())
}

// The words after the program's name. One that is not UTF-8 is `InvalidData`.
fn words<R: Env + AllocGlobal>(rt: &R) -> io::Result<Vec<String>> {
    let mut words = Vec::new(rt.alloc());
    for word in env::args(rt)?.skip(1) {
        words.push(word)?;
    }
    Ok(words)
}

// How the program ends where its words cannot be had: as with words that are not the command's where
// one is not UTF-8, and else for want of memory.
fn without_words(error: &io::Error) -> Outcome {
    match error.kind() {
        io::ErrorKind::InvalidData => Outcome::Usage {
            fault: UsageFault::NotTheCommand,
        },
        _ => Outcome::NoMemory,
    }
}
