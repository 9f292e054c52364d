use mesh_num::NoMemory;
use std::error::Error;
use std::fmt;

/// Why a dense run cannot start or go on.
#[derive(Clone, Copy, Debug, PartialEq, Eq)]
pub enum DenseFault {
    /// No memory was left.
    NoMemory,
    /// The opening tree would have more than 65,536 leaves.
    TooManyAtStart,
    /// The next tree would have more than 65,536 leaves: after which cycle, and how many it would have.
    TooManyBlocks { cycle: u32, leaves: u64 },
}

impl fmt::Display for DenseFault {
    fn fmt<W: fmt::Write>(&self, f: &mut fmt::Formatter<W>) -> fmt::Result {
        match self {
            DenseFault::NoMemory => write!(f, "no memory"),
            DenseFault::TooManyAtStart => write!(f, "too many blocks at start"),
            DenseFault::TooManyBlocks { cycle, leaves } => {
                write!(f, "too many blocks at cycle {cycle}: {leaves}")
            }
        }
    }
}

impl Error for DenseFault {}

impl From<NoMemory> for DenseFault {
    ghost use Rattle.std.specs.Prelude.{◌≡◌};
    ghost use Rattle.dense_model.specs.declared.fault.DenseFault.TheVariants.{NoMemory};

    ghost from_gives = { λ _ fault. fault ≡ NoMemory };

    fn from(_error: NoMemory) -> DenseFault {
        DenseFault::NoMemory
    }
}
