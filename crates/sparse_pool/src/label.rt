ghost use Rattle.std.specs.Prelude.{◌≡◌, IfOk, string_bytes};
ghost use Rattle.sparse_pool.specs.Label.{label};

use std::alloc::{AllocError, AllocFailed, Global};

/// Memory ran out.
#[derive(Clone, Copy, Debug, PartialEq, Eq)]
pub struct NoMemory;

impl From<AllocError> for NoMemory {
    fn from(_fault: AllocError) -> NoMemory {
        NoMemory
    }
}

impl<T: Drop> From<AllocFailed<T>> for NoMemory {
    fn from(_fault: AllocFailed<T>) -> NoMemory {
        NoMemory
    }
}

/// The label of the field of a pool with a number: the pool's name, an underscore, and the number in
/// decimal.
pub fn label_of(alloc: Global, base: &str, id: u32) -> Result<String, NoMemory>
    ensures { IfOk result (λ text. string_bytes text ≡ label base.now id) }
{
    Ok(format!(in alloc; "{base}_{id}")?)
}
