//! Buffers by block, then field.

ghost use Rattle.std.specs.Prelude.{◌≡◌, ◌≢◌, ℕ, ◌<◌, ◌≤◌, false, true, length};
ghost use Rattle.task_meshes.specs.Orders.{AreOfBlock, BufsRise, buf_at, is_before};

use field_bufs::FieldBuf;

/// Buffers between two places of a list.
#[derive(Clone, Copy)]
pub struct BufRange {
    pub start: usize,
    /// The place after the last one.
    pub end: usize,
}

/// Whether a buffer stands before the place of a block and a field.
fn stands_before(buf: &FieldBuf, block: u32, field: u32) -> bool
    ensures { result ≡ is_before buf.now.block buf.now.field block field }
{
    buf.block < block || (buf.block == block && buf.field < field)
}

/// The first of the buffers that does not stand before the place of a block and a field.
pub fn first_at(bufs: &[FieldBuf], block: u32, field: u32) -> usize
    requires { BufsRise bufs.now }
    ensures within { result ≤ length bufs.now }
    ensures before { (k : ℕ) → k < result
        → is_before (buf_at bufs.now k).block (buf_at bufs.now k).field block field ≡ true }
    ensures after { (k : ℕ) → result ≤ k → k < length bufs.now
        → is_before (buf_at bufs.now k).block (buf_at bufs.now k).field block field ≡ false }
{
    let mut low = 0;
    let mut high = bufs.len();
    'halve: while low < high {
        let middle = low + (high - low) / 2;
        if stands_before(&bufs[middle], block, field) {
            low = middle + 1;
        } else {
            high = middle;
        }
    }
    low
}

/// Where the run of buffers of a block that begins at a place ends.
fn end_of(bufs: &[FieldBuf], start: usize, block: u32) -> usize
    requires { start ≤ length bufs.now }
    ensures ordered { start ≤ result }
    ensures within { result ≤ length bufs.now }
    ensures here { (k : ℕ) → start ≤ k → k < result → (buf_at bufs.now k).block ≡ block }
    ensures next { result < length bufs.now → (buf_at bufs.now result).block ≢ block }
{
    for end in start..bufs.len() {
        if bufs[end].block != block {
            return end;
        }
    }
    bufs.len()
}

/// The buffers of a block.
pub fn bufs_of(bufs: &[FieldBuf], block: u32) -> BufRange
    requires { BufsRise bufs.now }
    ensures { AreOfBlock bufs.now block result.start result.end }
{
    let start = first_at(bufs, block, 0);
    let end = end_of(bufs, start, block);
    BufRange { start, end }
}
