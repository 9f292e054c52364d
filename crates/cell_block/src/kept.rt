//! What is kept of a field on a block, and a slab of such.

ghost use Rattle.std.specs.Prelude.{◌≡◌, ◌+◌, ◌-◌, ◌<◌, ◌^◌, None, Some, IsSome};
ghost use Rattle.std.specs.Option.{ForSome, option_map};
ghost use Rattle.slab.specs.Slab.{ContainsKey, get, with_value};
ghost use Rattle.cell_block.specs.State.{stamped};
ghost use Rattle.cell_block.specs.declared.kept.Kept.{Kept};
ghost use Rattle.cell_block.specs.Store.{buf_under, stamped_kept};

use field_bufs::FieldBuf;
use slab::Slab;
use sparse_pool::Place;

/// What is kept of a field on a block where it is allocated.
#[derive(Debug, Drop)]
pub struct Kept {
    /// The block and the field.
    pub at: Place,
    /// At how many checks in a row it was idle there.
    pub idle: u32,
    /// The buffer, or None while it is lent.
    pub buf: Option<FieldBuf>,
}

/// Takes out the buffer that is kept under a key.
pub fn lend(buffers: &mut Slab<Kept>, key: usize) -> FieldBuf
    requires { IsSome (buf_under buffers.old key) }
    ensures buffer { buf_under buffers.old key ≡ Some result }
    ensures lent { (kept : Kept) → get buffers.old key ≡ Some kept
        → buffers.new ≡ with_value buffers.old key (record kept { buf = None }) }
{
    let kept = buffers.get_mut(key).unwrap();
    kept.buf.take().unwrap()
}

/// Puts a buffer under a key.
pub fn put(buffers: &mut Slab<Kept>, key: usize, buf: FieldBuf)
    requires { ContainsKey buffers.old key }
    ensures { (kept : Kept) → get buffers.old key ≡ Some kept
        → buffers.new ≡ with_value buffers.old key (record kept { buf = Some buf }) }
{
    let kept = buffers.get_mut(key).unwrap();
    kept.buf = Some(buf);
}

/// Sets the idle count under a key.
pub fn set_idle(buffers: &mut Slab<Kept>, key: usize, idle: u32)
    requires { ContainsKey buffers.old key }
    ensures { (kept : Kept) → get buffers.old key ≡ Some kept
        → buffers.new ≡ with_value buffers.old key (record kept { idle = idle }) }
{
    let kept = buffers.get_mut(key).unwrap();
    kept.idle = idle;
}

/// Raises a stamp by one where there is a buffer.
fn stamp(buf: &mut Option<FieldBuf>)
    requires { ForSome buf.old (λ b. b.stamp < 2 ^ 32 - 1) }
    ensures { buf.new ≡ option_map stamped buf.old }
{
    if let Some(buf) = buf {
        buf.stamp += 1;
    }
}

/// Raises the stamp of the buffer under a key by one, unless it is lent.
pub fn stamp_under(buffers: &mut Slab<Kept>, key: usize)
    requires present { ContainsKey buffers.old key }
    requires stamp { ForSome (buf_under buffers.old key) (λ buf. buf.stamp < 2 ^ 32 - 1) }
    ensures { (kept : Kept) → get buffers.old key ≡ Some kept
        → buffers.new ≡ with_value buffers.old key (stamped_kept kept) }
{
    let kept = buffers.get_mut(key).unwrap();
    stamp(&mut kept.buf);
}
