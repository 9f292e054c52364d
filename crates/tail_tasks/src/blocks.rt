//! The buffers of one block among those of a lease.

ghost use Rattle.std.specs.Prelude.{◌≡◌, ◌≢◌, ◌<◌, ◌≤◌, ℕ, length};
ghost use Rattle.tail_tasks.specs.Blocks.{buf_at};

use field_bufs::FieldBuf;

/// Where the run of buffers of a block that begins at a place ends.
pub fn end_of(bufs: &[FieldBuf], start: usize, block: u32) -> usize
    requires { start ≤ length bufs.now }
    ensures ordered { start ≤ result }
    ensures within { result ≤ length bufs.now }
    ensures here { (k : ℕ) → start ≤ k → k < result → (buf_at bufs.now k).block ≡ block }
    ensures next { result < length bufs.now → (buf_at bufs.now result).block ≢ block }
{
    for end in start..bufs.len() {
        if bufs[end].block != block {
            return end;
        }
    }
    bufs.len()
}
