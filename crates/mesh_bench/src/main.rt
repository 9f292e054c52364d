//! Carries a mesh state over to its next tree, or makes the text of its dump, over and over.
//!
//! The words are `alone FILE` (a remap in one thread), `threads FILE` (in several), `dump FILE [TEXT]` (a dump piece by
//! piece) or `whole FILE` (its whole text in memory); FILE is a deck with no part refined from the start. It prints the
//! milliseconds that it took, by the fastest of some rounds; of a remap, in which the first hundred leaves are refined,
//! also how many leaves there are before and after it, and of a dump how many leaves and bytes there are. With TEXT it
//! measures nothing and writes the dump to that file. Without words it prints the leaves and bytes of a small deck.
//! `bench/remaps.sh` and `bench/dumps.sh` measure both.
#![tactic(auto)]

mod meshes;
mod rounds;

use meshes::problem_of;
use rounds::{Cut, Figures, How, dump_figures, opening_dump, remap_figures};
use std::alloc::Global;
use std::thread::Threads;
use std::time::Clock;
use std::{env, fs, io};

/// Four by four blocks of four by four cells, with two fields, of which one is sparse.
const SMALL: &str =
    "<parthenon/mesh>\nnx1 = 16\nnx2 = 16\nrefinement = adaptive\nnumlevel = 2\n<parthenon/meshblock>\nnx1 = 4\nnx2 = 4\n<parthenon/time>\nnlim = 1\n<whole>\ndenominator = 4\n<field/a>\n<field/b>\nflags = Cell,Independent,FillGhost,WithFluxes,Sparse\nids = 0\n<box/0>\nfield = a\namount = 1000\n<box/1>\nfield = b_0\nhi1 = 5\namount = 7\n";

/// What is timed.
#[derive(Clone, Copy, PartialEq, Eq, Debug)]
enum Case {
    Alone,
    Threads,
    Dump,
    Whole,
}

impl Case {
    /// The case with a name, a dump where there is none.
    fn named(word: &str) -> Case {
        if word == "alone" {
            Case::Alone
        } else if word == "threads" {
            Case::Threads
        } else if word == "whole" {
            Case::Whole
        } else {
            Case::Dump
        }
    }
}

fn main(rt: HostRuntime) -> io::Result<()> {
    let mut words = env::args(&rt)?.skip(1);
    let Some(word) = words.next() else {
        return match small(&rt, rt.alloc()) {
            Some((remap, dump)) => {
                println!(rt;
                    "{} leaves, {} after a remap, a dump of {} bytes",
                    remap.before, remap.after, dump.after
                )
            }
            None => println!(rt; "no figures"),
        };
    };
    let Some(name) = words.next() else {
        return println!(rt; "no file");
    };
    let deck = fs::read_to_string(&rt, name.as_str())?;
    if let Some(text) = words.next() {
        return match text_of(rt.alloc(), deck.as_str()) {
            Some(bytes) => fs::write(&rt, text.as_str(), bytes.as_slice()),
            None => println!(rt; "no dump"),
        };
    }
    match figures_of(&rt, rt.alloc(), Case::named(word.as_str()), deck.as_str()) {
        Some(figures) => {
            let micros = figures.time / 1000;
            println!(rt;
                "{} {} {}.{:03}",
                figures.before,
                figures.after,
                micros / 1000,
                micros % 1000
            )
        }
        None => println!(rt; "no figures"),
    }
}

/// The figures of a remap and of a dump of the small deck.
fn small<R: Threads + Clock + Sync>(rt: &R, alloc: Global) -> Option<(Figures, Figures)> {
    let remap = figures_of(rt, alloc, Case::Threads, SMALL)?;
    let dump = figures_of(rt, alloc, Case::Dump, SMALL)?;
    Some((remap, dump))
}

/// The figures of a deck.
fn figures_of<R: Threads + Clock + Sync>(
    rt: &R,
    alloc: Global,
    case: Case,
    deck: &str,
) -> Option<Figures> {
    let problem = problem_of(alloc, deck)?;
    match case {
        Case::Alone => remap_figures(rt, alloc, &problem, How::Alone),
        Case::Threads => remap_figures(rt, alloc, &problem, How::Threads),
        Case::Dump => dump_figures(rt, alloc, &problem, Cut::Pieces),
        Case::Whole => dump_figures(rt, alloc, &problem, Cut::Whole),
    }
}

/// The opening dump of a deck.
fn text_of(alloc: Global, deck: &str) -> Option<Vec<u8>> {
    let problem = problem_of(alloc, deck)?;
    opening_dump(alloc, &problem)
}
