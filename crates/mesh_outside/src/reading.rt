ghost use Rattle.std.specs.Prelude.{◌≡◌, ◌+◌, ◌<◌, ◌≤◌, ◌^◌, Err, vec_len, length, IfOk};
ghost use Rattle.mesh_outside.specs.Depot.{AfterReads};
ghost use Rattle.mesh_outside.specs.Reading.{ReadsInput, ReadsMore};

use crate::{Depot, OutFault};
use std::alloc::{AllocError, Global};

/// The greatest number of bytes that one read asks for.
const PIECE: usize = 65_536;

/// The bytes of an input, read in pieces of at most 65,536 bytes; of a longer one the first
/// `limit + 1`, so that the caller sees that it is too long.
pub fn read_input<D: Depot>(
    alloc: Global,
    depot: &mut D,
    name: &str,
    limit: usize,
) -> Result<Vec<u8>, OutFault>
    requires { limit < 2 ^ 32 }
    ensures input { IfOk result (λ bytes. ReadsInput (D.seen depot.old).inputs name.now limit bytes.items) }
    ensures bounded { IfOk result (λ bytes. vec_len bytes ≤ limit + 1) }
    ensures after { AfterReads name.now (result ≡ Err OutFault.Failed) (D.seen depot.old) (D.seen depot.new) }
{
    let mut buffer = zeros(alloc, PIECE)?;
    let mut bytes = Vec::new(alloc);
    while bytes.len() <= limit {
        let room = PIECE.min(limit + 1 - bytes.len());
        let count = read_next(depot, name, &mut bytes, &mut buffer[..room])?;
        if count == 0 {
            return Ok(bytes);
        }
    }
    Ok(bytes)
}

// Reads one piece behind the bytes that were read so far.
fn read_next<D: Depot>(
    depot: &mut D,
    name: &str,
    bytes: &mut Vec<u8>,
    piece: &mut [u8],
) -> Result<usize, OutFault>
    ensures more { IfOk result (λ count. ReadsMore (D.seen depot.old).inputs name.now bytes.old.items bytes.new.items
        (length piece.old) count) }
    ensures length { IfOk result (λ count. vec_len bytes.new ≡ vec_len bytes.old + count) }
    ensures within { IfOk result (λ count. count ≤ length piece.old) }
    ensures after { AfterReads name.now (result ≡ Err OutFault.Failed) (D.seen depot.old) (D.seen depot.new) }
{
    let count = depot.read_piece(name, bytes.len() as u64, piece)?;
    bytes.extend_from_slice(&piece[..count])?;
    Ok(count)
}

fn zeros(alloc: Global, size: usize) -> Result<Vec<u8>, AllocError>
    ensures { IfOk result (λ buffer. vec_len buffer ≡ size) }
{
    vec![in alloc; 0u8; size]
}
