ghost use Rattle.std.specs.Prelude.{◌≡◌};
ghost use Rattle.mesh_words.specs.declared.fault.UsageFault.TheVariants.{NoMemory};

use std::alloc::{AllocError, AllocFailed};

/// Why the words of a command line are refused: the first rule that they break.
#[derive(Clone, Copy, Debug, PartialEq, Eq)]
pub enum UsageFault {
    /// They are not the words of the command.
    NotTheCommand,
    /// Neither `-i` nor `-g` is given.
    NoInput,
    /// Both `-i` and `-g` are given.
    TwoInputs,
    /// `-l` is given without `-g`.
    Large,
    /// The value of `-w` is not 1 to 10 digits of a value from 1 to 64.
    Workers,
    /// The value of `-g` is not 1 to 10 digits of a value below 2^31.
    Seed,
    /// The value of `-d` is empty or longer than 200 bytes.
    Prefix,
    /// `-t` is given, which this program does not carry out yet.
    NotBuilt,
    /// There was not enough memory.
    NoMemory,
}

impl From<AllocError> for UsageFault {
    ghost from_gives = { λ _ e. e ≡ NoMemory };

    fn from(_e: AllocError) -> UsageFault {
        UsageFault::NoMemory
    }
}

impl<T: Drop> From<AllocFailed<T>> for UsageFault {
    ghost from_gives = { λ _ e. e ≡ NoMemory };

    fn from(_e: AllocFailed<T>) -> UsageFault {
        UsageFault::NoMemory
    }
}
