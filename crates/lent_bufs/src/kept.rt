//! Which of some buffers are kept.

ghost use Rattle.std.specs.Prelude.{◌≡◌};
ghost use Rattle.lent_bufs.specs.Buffers.{place_of as place_of_buf};
ghost use Rattle.lent_bufs.specs.Kept.{is_here};

use field_bufs::FieldBuf;
use sparse_pool::Place;

/// The place of a buffer.
pub fn place_of(buf: &FieldBuf) -> Place
    ensures { result ≡ place_of_buf buf.now }
{
    Place {
        block: buf.block,
        field: buf.field,
    }
}

/// Whether the place at a number of a list is that of a buffer. Where the list has the places of some of the buffers
/// that are gone through, in their order, and the number counts those that were met, this is whether the buffer is
/// among them.
pub fn is_next(kept: &[Place], next: usize, buf: &FieldBuf) -> bool
    ensures { result ≡ is_here kept.now next buf.now.block buf.now.field }
{
    next < kept.len() && kept[next].block == buf.block && kept[next].field == buf.field
}
