//! Why there is no tree.

ghost use Rattle.std.specs.Prelude.{◌≡◌};

use mesh_num::NoMemory as OutOfMemory;
use std::alloc::AllocError;
use std::error::Error;
use std::fmt;

/// Why a tree was not made.
#[derive(Clone, Copy, PartialEq, Eq, Debug)]
pub enum TreeFault {
    /// The opening tree would have more than 65,536 leaves.
    TooManyAtStart,
    /// The next tree would have more than 65,536 leaves: how many it would have.
    TooManyBlocks { leaves: u64 },
    /// No memory was left.
    NoMemory,
}

impl fmt::Display for TreeFault {
    fn fmt<W: fmt::Write>(&self, f: &mut fmt::Formatter<W>) -> fmt::Result {
        match self {
            TreeFault::TooManyAtStart => write!(f, "too many blocks at start"),
            TreeFault::TooManyBlocks { leaves } => write!(f, "too many blocks: {leaves}"),
            TreeFault::NoMemory => write!(f, "no memory"),
        }
    }
}

impl Error for TreeFault {}

impl From<OutOfMemory> for TreeFault {
    ghost use Rattle.block_tree.specs.declared.fault.TreeFault.TheVariants.{NoMemory as no_memory};

    ghost from_gives = { λ _ fault. fault ≡ no_memory };

    fn from(_error: OutOfMemory) -> TreeFault {
        TreeFault::NoMemory
    }
}

impl From<AllocError> for TreeFault {
    ghost use Rattle.block_tree.specs.declared.fault.TreeFault.TheVariants.{NoMemory as no_memory};

    ghost from_gives = { λ _ fault. fault ≡ no_memory };

    fn from(_error: AllocError) -> TreeFault {
        TreeFault::NoMemory
    }
}
