ghost use Rattle.std.specs.Prelude.{◌≡◌};
ghost use Rattle.mesh_outcome.specs.Status.{code_of};

/// The status of a call.
#[derive(Clone, Copy, Debug, PartialEq, Eq)]
pub enum Status {
    /// The run completed, and all its files are written; or the deck was printed.
    Done,
    /// The words are refused.
    Usage,
    /// The input is refused.
    Refused,
    /// The named file could not be read.
    ReadFault,
    /// A file could not be written.
    WriteFault,
    /// No memory was left.
    NoMemory,
    /// A tree would have too many leaves: the opening one, or one at a cycle.
    TooManyBlocks,
    /// What was to be printed could not be.
    PrintFault,
}

impl Status {
    /// The number that the program ends with.
    pub fn code(self) -> u8
        ensures { result ≡ code_of self }
    {
        match self {
            Status::Done => 0,
            Status::Usage => 1,
            Status::Refused => 2,
            Status::ReadFault => 3,
            Status::WriteFault => 4,
            Status::NoMemory => 5,
            Status::TooManyBlocks => 6,
            Status::PrintFault => 7,
        }
    }
}
