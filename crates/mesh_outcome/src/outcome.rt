ghost use Rattle.std.specs.Prelude.{◌≡◌};
ghost use Rattle.mesh_outcome.specs.Outcome.{status_of};

use crate::Status;
use input_file::Deck;
use mesh_input::Refusal;
use mesh_words::UsageFault;

/// How a call ended, with all that is told of it.
#[derive(Drop)]
pub enum Outcome {
    /// The run completed, with this number of cycles, and of leaves and the sum of all totals at the end.
    Done {
        cycles: u32,
        blocks: u32,
        total: u64,
    },
    /// The problem was accepted, and its deck is to be printed.
    Listed {
        deck: Deck,
    },
    /// The words are refused.
    Usage {
        fault: UsageFault,
    },
    /// The input is refused.
    Refused {
        refusal: Refusal,
    },
    /// The named file could not be read.
    ReadFault,
    /// A file could not be written.
    WriteFault,
    /// No memory was left.
    NoMemory,
    /// The opening tree would have more than 65,536 leaves.
    TooManyAtStart,
    /// The next tree would have more than 65,536 leaves: after which cycle, and how many it would have.
    TooManyBlocks {
        cycle: u32,
        leaves: u64,
    },
}

impl Outcome {
    /// The status that the call ends with, where its line is printed.
    pub fn status(&self) -> Status
        ensures { result ≡ status_of self.now }
    {
        match self {
            Outcome::Done { .. } | Outcome::Listed { .. } => Status::Done,
            Outcome::Usage { .. } => Status::Usage,
            Outcome::Refused { .. } => Status::Refused,
            Outcome::ReadFault => Status::ReadFault,
            Outcome::WriteFault => Status::WriteFault,
            Outcome::NoMemory => Status::NoMemory,
            Outcome::TooManyAtStart | Outcome::TooManyBlocks { .. } => Status::TooManyBlocks,
        }
    }
}
