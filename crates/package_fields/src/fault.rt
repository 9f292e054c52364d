ghost use Rattle.std.specs.Prelude.{◌≡◌};

use crate::name::Name;
use std::alloc::{AllocError, AllocFailed};

/// Memory ran out.
#[derive(Clone, Copy, Debug, PartialEq, Eq)]
pub struct NoMemory;

impl From<AllocError> for NoMemory {
    fn from(_fault: AllocError) -> NoMemory {
        NoMemory
    }
}

impl<T: Drop> From<AllocFailed<T>> for NoMemory {
    fn from(_fault: AllocFailed<T>) -> NoMemory {
        NoMemory
    }
}

/// Why a package was not added.
#[derive(Debug, Drop)]
pub enum FieldFault {
    /// A package with this name, or a field with this label, is there already.
    Twice { name: Name },
    /// The field whose label has this base has flags that are not permitted together.
    BadFlags { name: Name },
    /// There would be this many fields, one more than the limit.
    TooMany { count: u32 },
    NoMemory,
}

impl From<AllocError> for FieldFault {
    ghost use Rattle.package_fields.specs.declared.fault.FieldFault.TheVariants.{NoMemory as no_memory};

    ghost from_gives = { λ _ fault. fault ≡ no_memory };

    fn from(_fault: AllocError) -> FieldFault {
        FieldFault::NoMemory
    }
}

impl From<NoMemory> for FieldFault {
    ghost use Rattle.package_fields.specs.declared.fault.FieldFault.TheVariants.{NoMemory as no_memory};

    ghost from_gives = { λ _ fault. fault ≡ no_memory };

    fn from(_fault: NoMemory) -> FieldFault {
        FieldFault::NoMemory
    }
}
