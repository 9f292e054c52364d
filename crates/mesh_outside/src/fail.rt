use crate::Items;

/// A call of a memory depot that fails. Calls and files are counted from 1.
#[derive(Clone, Copy, Debug, PartialEq, Eq)]
pub enum Fail {
    /// The read of this number.
    Read(u64),
    /// The `begin` of this number.
    Begin(u64),
    /// The first `append` to the file of this number.
    AppendOf(u64),
    /// The `finish` of this number.
    Finish(u64),
}

/// The calls that fail.
pub type Fails = Items<Fail>;
