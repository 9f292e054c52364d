//! One field of one block of a row, over plain numbers: what each event of a cycle makes of it.

/// A buffer: a cell, what lies beyond the two ends of its block, and what passes its two faces, to the right and to
/// the left.
#[derive(Clone, Copy, PartialEq, Eq, Debug)]
pub struct Buffer {
    pub cell: u64,
    pub low: u64,
    pub high: u64,
    pub low_right: u64,
    pub low_left: u64,
    pub high_right: u64,
    pub high_left: u64,
}

/// A field on a block: its buffer, whether the task that is out was lent it, whether it is kept, at how many checks in
/// a row it was idle, and what was dropped of it.
#[derive(Clone, Copy, PartialEq, Eq, Debug)]
pub struct Slot {
    pub buffer: Option<Buffer>,
    pub leased: bool,
    pub kept: bool,
    pub idle: u64,
    pub dropped: u64,
}
