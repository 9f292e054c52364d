ghost use Rattle.std.specs.Prelude.{◌≡◌, ◌≤◌, Ok, Err, MatchResult};
ghost use Rattle.mesh_outside.specs.Fault.{Counts, Rose};

use crate::OutFault;
use std::io;

/// Counts a failure of the system, up to the counter's end.
pub(crate) fn counted<T>(answer: io::Result<T>, faults: &mut u64) -> Result<T, OutFault>
    ensures answer { MatchResult answer (λ value. result ≡ Ok value) (λ error. result ≡ Err OutFault.Failed) }
    ensures memory { result ≡ Err OutFault.NoMemory → ⊥ }
    ensures later { faults.old ≤ faults.new }
    ensures cause { result ≡ Err OutFault.Failed → Rose faults.old faults.new }
    ensures exact { Counts (result ≡ Err OutFault.Failed) faults.old faults.new }
{
    match answer {
        Ok(value) => Ok(value),
        Err(_) => {
            *faults = faults.saturating_add(1);
            Err(OutFault::Failed)
        }
    }
}
