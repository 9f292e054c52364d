//! Rounds of remaps and of dumps.

ghost use Rattle.problem_set.specs.SettingsOf.{settings_of};
ghost use Rattle.cell_block.specs.Rules.{IsStoredFor};
ghost use Rattle.remesh.specs.Remaps.{CanRemap};

use crate::meshes::{change_of, opened};
use block_tree::Tree;
use cell_block::MeshState;
use dump_writer::{DumpWalk, NoMemory, dump_text};
use problem_set::Problem;
use remesh::{remap, remap_alone};
use std::alloc::Global;
use std::io;
use std::thread::Threads;
use std::time::{Clock, Instant};

const ROUNDS: u32 = 5;

/// The number of bytes from which on the pieces of a dump that were collected are let go.
const LARGE: usize = 65_536;

/// How a mesh state goes over to a tree.
#[derive(Clone, Copy, PartialEq, Eq, Debug)]
pub(crate) enum How {
    Alone,
    Threads,
}

/// How the text of a dump is made.
#[derive(Clone, Copy, PartialEq, Eq, Debug)]
pub(crate) enum Cut {
    Pieces,
    Whole,
}

/// What was made and how long it took.
#[derive(Clone, Copy, PartialEq, Eq, Debug)]
pub(crate) struct Figures {
    /// How many leaves there were before.
    pub(crate) before: u64,
    /// How many leaves there are after it, or bytes of a dump.
    pub(crate) after: u64,
    /// The nanoseconds of the fastest round.
    pub(crate) time: u128,
}

/// The nanoseconds since a time, if the clock tells.
fn nanoseconds_since<C: Clock>(clock: &C, start: io::Result<Instant>) -> Option<u128> {
    match start {
        Ok(at) => match at.elapsed(clock) {
            Ok(took) => Some(took.as_nanos()),
            Err(_) => None,
        },
        Err(_) => None,
    }
}

/// A remap.
fn remapped<R: Threads + Sync>(
    rt: &R,
    alloc: Global,
    problem: &Problem,
    mesh: &MeshState,
    tree: Tree,
    how: How,
) -> Result<MeshState, NoMemory>
    requires { CanRemap (settings_of problem.now) mesh.now tree }
{
    match how {
        How::Alone => remap_alone(alloc, problem, mesh, tree),
        How::Threads => remap(rt, alloc, problem, mesh, tree),
    }
}

/// The nanoseconds of a remap.
fn remap_time<R: Threads + Clock + Sync>(
    rt: &R,
    alloc: Global,
    problem: &Problem,
    mesh: &MeshState,
    next: &Tree,
    how: How,
) -> Option<u128>
    requires { CanRemap (settings_of problem.now) mesh.now next.now }
{
    let Ok(tree) = next.copy(alloc) else {
        return None;
    };
    let start = Instant::now(rt);
    match remapped(rt, alloc, problem, mesh, tree, how) {
        Ok(_) => nanoseconds_since(rt, start),
        Err(_) => None,
    }
}

/// The figures of a remap.
pub(crate) fn remap_figures<R: Threads + Clock + Sync>(
    rt: &R,
    alloc: Global,
    problem: &Problem,
    how: How,
) -> Option<Figures> {
    let change = change_of(alloc, problem)?;
    let mut best = u128::from(u64::MAX);
    for _ in 0..ROUNDS {
        let time = remap_time(rt, alloc, problem, &change.mesh, &change.next, how)?;
        best = best.min(time);
    }
    Some(Figures {
        before: u64::from(change.mesh.tree().len()),
        after: u64::from(change.next.len()),
        time: best,
    })
}

/// Empties a buffer that is large, and answers how many bytes it had.
fn let_go(buffer: &mut Vec<u8>) -> u64 {
    if buffer.len() < LARGE {
        return 0;
    }
    let bytes = buffer.len() as u64;
    buffer.clear();
    bytes
}

/// How many bytes the pieces of a walk have, whose texts are let go.
fn walked<'a>(alloc: Global, walk: &mut DumpWalk<'a>) -> Result<u64, NoMemory> {
    let mut buffer = Vec::new(alloc);
    let mut bytes = 0u64;
    'pieces: while walk.next(&mut buffer)? {
        bytes = bytes.saturating_add(let_go(&mut buffer));
    }
    Ok(bytes.saturating_add(buffer.len() as u64))
}

/// How many bytes a dump has, and the nanoseconds that its pieces took.
fn pieces_time<C: Clock>(
    clock: &C,
    alloc: Global,
    problem: &Problem,
    mesh: &MeshState,
) -> Option<(u64, u128)>
    requires { IsStoredFor (settings_of problem.now) mesh.now }
{
    let start = Instant::now(clock);
    let mut walk = DumpWalk::start(alloc, problem, mesh, 0);
    let bytes = walked(alloc, &mut walk).ok()?;
    let time = nanoseconds_since(clock, start)?;
    Some((bytes, time))
}

/// How many bytes a dump has, and the nanoseconds that its whole text took.
fn whole_time<C: Clock>(
    clock: &C,
    alloc: Global,
    problem: &Problem,
    mesh: &MeshState,
) -> Option<(u64, u128)>
    requires { IsStoredFor (settings_of problem.now) mesh.now }
{
    let start = Instant::now(clock);
    let text = dump_text(alloc, problem, mesh, 0).ok()?;
    let time = nanoseconds_since(clock, start)?;
    Some((text.len() as u64, time))
}

/// The bytes and the nanoseconds of a dump.
fn dump_time<C: Clock>(
    clock: &C,
    alloc: Global,
    problem: &Problem,
    mesh: &MeshState,
    cut: Cut,
) -> Option<(u64, u128)>
    requires { IsStoredFor (settings_of problem.now) mesh.now }
{
    match cut {
        Cut::Pieces => pieces_time(clock, alloc, problem, mesh),
        Cut::Whole => whole_time(clock, alloc, problem, mesh),
    }
}

/// The figures of a dump.
pub(crate) fn dump_figures<C: Clock>(
    clock: &C,
    alloc: Global,
    problem: &Problem,
    cut: Cut,
) -> Option<Figures> {
    let mesh = opened(alloc, problem)?;
    let mut best = u128::from(u64::MAX);
    let mut after = 0;
    for _ in 0..ROUNDS {
        let (bytes, time) = dump_time(clock, alloc, problem, &mesh, cut)?;
        after = bytes;
        best = best.min(time);
    }
    Some(Figures {
        before: u64::from(mesh.tree().len()),
        after,
        time: best,
    })
}

/// The opening dump of a problem.
pub(crate) fn opening_dump(alloc: Global, problem: &Problem) -> Option<Vec<u8>> {
    let mesh = opened(alloc, problem)?;
    dump_text(alloc, problem, &mesh, 0).ok()
}
