//! Runs the example decks of its folder `data` one after another, and prints of each the line of the call, the last dump and the
//! history. What it prints is compared with the file `stdout`.
#![tactic(auto)]

use mesh_cli::mesh_plain;
use mesh_outside::{FileDepot, OutFault, Sink, StdSink, read_input};
use std::alloc::{AllocError, Global};
use std::process::ExitCode;
use std::rt::Files;

/// The names of the decks, and the numbers of their last cycles.
const EXAMPLES: [(&str, u32); 11] = [
    ("periodic_faces", 2),
    ("outflow_faces", 2),
    ("inflow_face", 2),
    ("second_order", 1),
    ("three_axes", 1),
    ("static_refinement", 1),
    ("adaptive_row", 6),
    ("reaction", 1),
    ("thresholds", 1),
    ("several_fields", 100),
    ("two_dyes", 20),
];

/// The greatest number of bytes of a file that is printed.
const LIMIT: usize = 1_000_000;

fn main(rt: HostRuntime) -> ExitCode {
    let mut out = StdSink::new(&rt);
    for (name, cycles) in EXAMPLES {
        if run_example(rt.alloc(), &rt, name, cycles, &mut out).is_err() {
            return ExitCode::from(1);
        }
    }
    ExitCode::from(0)
}

// Runs a deck, and prints what it left.
fn run_example<R: Files, K: Sink>(
    alloc: Global,
    system: &R,
    name: &str,
    cycles: u32,
    out: &mut K,
) -> Result<(), OutFault> {
    let words = words(alloc, name)?;
    let mut depot = FileDepot::new(system);
    out.print(name.as_bytes())?;
    out.print(b": ")?;
    mesh_plain(alloc, words.as_slice(), &mut depot, out);
    print_files(alloc, system, name, cycles, out)
}

fn words(alloc: Global, name: &str) -> Result<Vec<String>, AllocError> {
    let mut words = Vec::new(alloc);
    words.push(String::from_str(alloc, "-i")?)?;
    words.push(format!(in alloc; "{name}.in")?)?;
    words.push(String::from_str(alloc, "-d")?)?;
    words.push(String::from_str(alloc, name)?)?;
    Ok(words)
}

// Prints the last dump and the history.
fn print_files<R: Files, K: Sink>(
    alloc: Global,
    system: &R,
    name: &str,
    cycles: u32,
    out: &mut K,
) -> Result<(), OutFault> {
    let dump = format!(in alloc; "{name}.{cycles:06}.dump")?;
    let history = format!(in alloc; "{name}.hist")?;
    print_file(alloc, system, dump.as_str(), out)?;
    print_file(alloc, system, history.as_str(), out)
}

fn print_file<R: Files, K: Sink>(
    alloc: Global,
    system: &R,
    name: &str,
    out: &mut K,
) -> Result<(), OutFault> {
    let mut depot = FileDepot::new(system);
    let bytes = read_input(alloc, &mut depot, name, LIMIT)?;
    out.print(bytes.as_slice())
}
