ghost use Rattle.std.specs.Prelude.{◌≡◌};
ghost use Rattle.mesh_outcome.specs.Printing.{AfterReport, AfterText, Prints, Tells};

use crate::{Outcome, Status, text_of};
use mesh_outside::{OutFault, Sink};
use std::alloc::Global;

/// Prints how a call ended, and answers its status. Where no memory is left for its line, or printing
/// fails, that is the status.
pub fn report<K: Sink>(alloc: Global, outcome: &Outcome, out: &mut K) -> Status
    ensures told { Tells outcome.now result (K.seen out.old).printed (K.seen out.new).printed }
    ensures after { AfterReport outcome.now result (K.seen out.old) (K.seen out.new) }
{
    match text_of(alloc, outcome) {
        Ok(text) => print(text.as_bytes(), outcome.status(), out),
        Err(_) => print(b"no memory\n", Status::NoMemory, out),
    }
}

// Prints the text of a status. Where that fails, the status is that of printing.
fn print<K: Sink>(text: &[u8], status: Status, out: &mut K) -> Status
    requires { status ≡ Status.PrintFault → ⊥ }
    ensures printed { Prints text.now status result (K.seen out.old).printed (K.seen out.new).printed }
    ensures after { AfterText status result (K.seen out.old) (K.seen out.new) }
{
    match out.print(text) {
        Ok(()) => status,
        Err(OutFault::Failed) => Status::PrintFault,
        Err(OutFault::NoMemory) => Status::NoMemory,
    }
}
