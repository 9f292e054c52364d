use std::alloc::{AllocError, AllocFailed};
use thiserror::Error;

/// Why a call to the outside was not carried out.
#[derive(Clone, Copy, Debug, PartialEq, Eq, Error)]
pub enum OutFault {
    /// The outside refused it, and counted this as a fault.
    #[error("a call to the outside failed")]
    Failed,
    /// No memory was left. This never stands for a fault of the outside.
    #[error("no memory")]
    NoMemory,
}

impl From<AllocError> for OutFault {
    ghost use Rattle.std.specs.Prelude.{◌≡◌};
    ghost use Rattle.mesh_outside.specs.declared.fault.OutFault.TheVariants.{NoMemory};

    ghost from_gives = { λ _ fault. fault ≡ NoMemory };

    fn from(_error: AllocError) -> OutFault {
        OutFault::NoMemory
    }
}

impl<T: Drop> From<AllocFailed<T>> for OutFault {
    ghost use Rattle.std.specs.Prelude.{◌≡◌};
    ghost use Rattle.mesh_outside.specs.declared.fault.OutFault.TheVariants.{NoMemory};

    ghost from_gives = { λ _ fault. fault ≡ NoMemory };

    fn from(_error: AllocFailed<T>) -> OutFault {
        OutFault::NoMemory
    }
}
