use dense_model::DenseFault;
use mesh_num::NoMemory;
use mesh_outside::OutFault;
use thiserror::Error;

/// Why a run stopped before its last file was written.
#[derive(Clone, Copy, Debug, PartialEq, Eq, Error)]
pub enum DriveFault {
    /// The depot failed to write.
    #[error("a file could not be written")]
    WriteFault,
    /// No memory was left.
    #[error("no memory")]
    NoMemory,
    /// The opening tree would have more than 65,536 leaves.
    #[error("too many blocks at start")]
    TooManyAtStart,
    /// The next tree would have more than 65,536 leaves: after which cycle, and how many it would have.
    #[error("too many blocks at cycle {cycle}: {leaves}")]
    TooManyBlocks { cycle: u32, leaves: u64 },
}

impl From<OutFault> for DriveFault {
    ghost use Rattle.std.specs.Prelude.{◌≡◌};
    ghost use Rattle.mesh_driver.specs.Fault.{fault_of};

    ghost from_gives = { λ fault stop. stop ≡ fault_of fault };

    fn from(fault: OutFault) -> DriveFault {
        match fault {
            OutFault::Failed => DriveFault::WriteFault,
            OutFault::NoMemory => DriveFault::NoMemory,
        }
    }
}

impl From<NoMemory> for DriveFault {
    ghost use Rattle.std.specs.Prelude.{◌≡◌};
    ghost use Rattle.mesh_driver.specs.declared.fault.DriveFault.TheVariants.{NoMemory};

    ghost from_gives = { λ _ stop. stop ≡ NoMemory };

    fn from(_none: NoMemory) -> DriveFault {
        DriveFault::NoMemory
    }
}

impl From<DenseFault> for DriveFault {
    ghost use Rattle.std.specs.Prelude.{◌≡◌};
    ghost use Rattle.mesh_driver.specs.Fault.{fault_of_run};

    ghost from_gives = { λ fault stop. stop ≡ fault_of_run fault };

    fn from(fault: DenseFault) -> DriveFault {
        match fault {
            DenseFault::NoMemory => DriveFault::NoMemory,
            DenseFault::TooManyAtStart => DriveFault::TooManyAtStart,
            DenseFault::TooManyBlocks { cycle, leaves } => {
                DriveFault::TooManyBlocks { cycle, leaves }
            }
        }
    }
}
