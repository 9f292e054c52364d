ghost use Rattle.std.specs.Prelude.{◌≡◌, ◌+◌, ◌<◌, ◌≤◌, Err, vec_len, length, map, IfOk};
ghost use Rattle.mesh_outside.specs.Depot.{AfterReads};
ghost use Rattle.mesh_input.specs.File.{AnswersFile};
ghost use Rattle.mesh_input.specs.FileRead.{HasReadFront, HasReadFile};

use crate::fault::{InputFault, stop_of_reading};
use crate::input::{Input, accept_read};
use input_file::DeckReader;
use mesh_outside::{Depot, OutFault};
use std::alloc::{AllocError, Global};

/// The greatest number of bytes that a deck may have.
const LIMIT: usize = 1_048_576;

/// The greatest number of bytes that one read asks for.
const PIECE: usize = 65_536;

/// The input that a file of a depot and the overrides give. The file is read in pieces of at most
/// 65,536 bytes, each of which is let go once its lines were read; of a longer one than a deck may
/// be no more than shows it. Nothing is written.
pub fn accept_file<D: Depot>(
    alloc: Global,
    depot: &mut D,
    name: &str,
    overrides: &[&str],
) -> Result<Input, InputFault>
    ensures answer { AnswersFile (D.seen depot.old).inputs name.now (map (λ t. t.now) overrides.now) result }
    ensures after { AfterReads name.now (result ≡ Err InputFault.ReadFault) (D.seen depot.old) (D.seen depot.new) }
{
    match read_file(alloc, depot, name) {
        Ok(reader) => accept_read(alloc, reader, overrides),
        Err(fault) => Err(stop_of_reading(fault)),
    }
}

// Feeds a file to a reader.
fn read_file<D: Depot>(alloc: Global, depot: &mut D, name: &str) -> Result<DeckReader, OutFault>
    ensures file { IfOk result (λ reader. HasReadFile (D.seen depot.old).inputs name.now 1048576 reader) }
    ensures after { AfterReads name.now (result ≡ Err OutFault.Failed) (D.seen depot.old) (D.seen depot.new) }
{
    let mut buffer = zeros(alloc, PIECE)?;
    let mut reader = DeckReader::new(alloc);
    let mut from = 0;
    while from <= LIMIT {
        let room = PIECE.min(LIMIT + 1 - from);
        let count = feed_next(depot, name, from, &mut buffer[..room], &mut reader)?;
        if count == 0 {
            return Ok(reader);
        }
        from += count;
    }
    Ok(reader)
}

// Feeds to the reader one piece of a file, from a place on.
fn feed_next<D: Depot>(
    depot: &mut D,
    name: &str,
    from: usize,
    piece: &mut [u8],
    reader: &mut DeckReader,
) -> Result<usize, OutFault>
    requires place { from ≤ 1048576 }
    ensures more { IfOk result (λ count. HasReadFront (D.seen depot.old).inputs name.now reader.old from
        → HasReadFront (D.seen depot.old).inputs name.now reader.new (from + count)) }
    ensures last { IfOk result (λ count. count ≡ 0 → 0 < length piece.old
        → HasReadFront (D.seen depot.old).inputs name.now reader.old from
        → HasReadFile (D.seen depot.old).inputs name.now 1048576 reader.new) }
    ensures within { IfOk result (λ count. count ≤ length piece.old) }
    ensures after { AfterReads name.now (result ≡ Err OutFault.Failed) (D.seen depot.old) (D.seen depot.new) }
{
    let count = depot.read_piece(name, from as u64, piece)?;
    match reader.feed(&piece[..count]) {
        Ok(()) => Ok(count),
        Err(_) => Err(OutFault::NoMemory),
    }
}

fn zeros(alloc: Global, size: usize) -> Result<Vec<u8>, AllocError>
    ensures { IfOk result (λ buffer. vec_len buffer ≡ size) }
{
    vec![in alloc; 0u8; size]
}
