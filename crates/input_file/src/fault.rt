ghost use Rattle.std.specs.Prelude.{◌≡◌};
ghost use Rattle.input_file.specs.declared.fault.DeckFault.TheVariants.{NoMemory as no_memory};

use std::alloc::{AllocError, AllocFailed};

/// There was not enough memory.
#[derive(Clone, Copy, Debug, PartialEq, Eq)]
pub struct NoMemory;

impl From<AllocError> for NoMemory {
    fn from(_e: AllocError) -> NoMemory {
        NoMemory
    }
}

impl<T: Drop> From<AllocFailed<T>> for NoMemory {
    fn from(_e: AllocFailed<T>) -> NoMemory {
        NoMemory
    }
}

/// Why bytes are no deck, or why a word is no override. Lines are counted from 1, bytes from 0.
#[derive(Clone, Copy, Debug, PartialEq, Eq)]
pub enum DeckFault {
    /// The line is neither empty nor a header nor a key line.
    Syntax { line: u32 },
    /// The line sets a key before any header.
    NoBlock { line: u32 },
    /// No valid character begins at this byte.
    NotText { place: u64 },
    /// The word is not of the form `block/key=value`.
    BadOverride,
    /// There are more than 1,048,576 bytes.
    TooLong,
    /// There was not enough memory.
    NoMemory,
}

impl From<NoMemory> for DeckFault {
    ghost from_gives = { λ _ e. e ≡ no_memory };

    fn from(_e: NoMemory) -> DeckFault {
        DeckFault::NoMemory
    }
}
