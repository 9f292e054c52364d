ghost use Rattle.std.specs.Prelude.{◌≡◌};

use mesh_num::NoMemory;
use package_fields::{FieldFault, Name};
use std::alloc::{AllocError, AllocFailed};

/// Why a deck gives no problem: the first rule that fails.
#[derive(Debug, Drop)]
pub enum ProblemFault {
    /// A key that is required is absent.
    Missing {
        block: Name,
        name: Name,
    },
    /// A value is not of its form, or breaks a rule between keys.
    BadValue {
        block: Name,
        name: Name,
    },
    /// A number, or a count of blocks, is outside of its range.
    Limit {
        block: Name,
        name: Name,
        value: i128,
    },
    /// The rates of the field with this label add up to more than the denominator.
    Rates {
        label: Name,
        sum: u64,
    },
    /// The opening sum and all that may flow in come to this number, which is above the limit.
    Bound {
        total: u128,
    },
    /// The registry of fields refuses a package, or flags are unknown.
    Fields {
        fault: FieldFault,
    },
    NoMemory,
}

impl From<AllocError> for ProblemFault {
    ghost use Rattle.deck_values.specs.declared.fault.ProblemFault.TheVariants.{NoMemory as no_memory};

    ghost from_gives = { λ _ fault. fault ≡ no_memory };

    fn from(_fault: AllocError) -> ProblemFault {
        ProblemFault::NoMemory
    }
}

impl<T: Drop> From<AllocFailed<T>> for ProblemFault {
    ghost use Rattle.deck_values.specs.declared.fault.ProblemFault.TheVariants.{NoMemory as no_memory};

    ghost from_gives = { λ _ fault. fault ≡ no_memory };

    fn from(_fault: AllocFailed<T>) -> ProblemFault {
        ProblemFault::NoMemory
    }
}

impl From<NoMemory> for ProblemFault {
    ghost use Rattle.deck_values.specs.declared.fault.ProblemFault.TheVariants.{NoMemory as no_memory};

    ghost from_gives = { λ _ fault. fault ≡ no_memory };

    fn from(_fault: NoMemory) -> ProblemFault {
        ProblemFault::NoMemory
    }
}

impl From<package_fields::NoMemory> for ProblemFault {
    ghost use Rattle.deck_values.specs.declared.fault.ProblemFault.TheVariants.{NoMemory as no_memory};

    ghost from_gives = { λ _ fault. fault ≡ no_memory };

    fn from(_fault: package_fields::NoMemory) -> ProblemFault {
        ProblemFault::NoMemory
    }
}
