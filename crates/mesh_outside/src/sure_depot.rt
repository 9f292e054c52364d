ghost use Rattle.std.specs.Prelude.{◌≡◌, ◌≤◌, length, Some, None, Err, IsOk, OnOk, OnErr, IfOk};
ghost use Rattle.std.specs.Option.{ForSome};
ghost use Rattle.mesh_outside.specs.Depot.{AfterReads, AfterWrites, Reads};
ghost use Rattle.mesh_outside.specs.Fault.{counted};
ghost use Rattle.mesh_outside.specs.Files.{input_of};
ghost use Rattle.mesh_outside.specs.Gained.{IsOpen, begun, appended, finished};
ghost use Rattle.mesh_outside.specs.MemDepot.{FailsExactly, piece_of};
ghost use Rattle.mesh_outside.specs.SureDepot.{opening, seen_sure};

use crate::mem_read::read_from;
use crate::{Depot, Files, OutFault, Written};
use std::alloc::Global;
use std::marker::Model;

/// A depot in memory, which tells everything, and of which no call fails but the read of a name that
/// is not there. It reads at most a given number of bytes a call.
#[derive(Debug, Drop)]
pub struct SureDepot {
    inputs: Files,
    piece: usize,
    written: Written,
    absent_reads: u64,
}

impl Model for SureDepot {
    ghost use Rattle.std.specs.Prelude.{◌≤◌};
    ghost use Rattle.mesh_outside.specs.SureDepot.{SureState};

    ghost Value = { SureState };

    ghost view = { λ d. record {
      inputs = d.inputs;
      piece = d.piece;
      written = d.written;
      absent_reads = d.absent_reads;
    } };

    ghost invariant = { λ d. 1 ≤ d.piece };
}

impl SureDepot {
    /// A depot with these inputs.
    pub fn new(alloc: Global, inputs: Files, piece: usize) -> SureDepot
        requires { 1 ≤ piece }
        ensures { result ≡ opening inputs piece }
    {
        SureDepot {
            inputs,
            piece,
            written: Written::new(alloc),
            absent_reads: 0,
        }
    }

    /// The files gained so far.
    pub fn written(&self) -> &Written
        ensures { result.now ≡ self.now.written }
    {
        &self.written
    }
}

impl Depot for SureDepot {
    ghost use Rattle.mesh_outside.specs.SureDepot.{seen_sure};

    ghost seen = { seen_sure };

    fn read_piece(&mut self, name: &str, from: u64, into: &mut [u8]) -> Result<usize, OutFault>
        ensures piece { Reads (Some self.old.inputs) name.now from into.old into.new result }
        ensures within { IfOk result (λ count. count ≤ length into.old) }
        ensures amount { IfOk result (λ count. ForSome (input_of self.old.inputs name.now) (λ bytes. count
            ≡ piece_of self.old.piece bytes from (length into.old))) }
        ensures fails { FailsExactly result (input_of self.old.inputs name.now ≡ None) }
        ensures memory { result ≡ Err OutFault.NoMemory → ⊥ }
        ensures counts { self.new ≡ record self.old { absent_reads = counted result self.old.absent_reads } }
        ensures after { AfterReads name.now (result ≡ Err OutFault.Failed) (seen_sure self.old) (seen_sure self.new) }
    {
        match read_from(&self.inputs, name, from, into, self.piece) {
            Some(count) => Ok(count),
            None => {
                self.absent_reads = self.absent_reads.saturating_add(1);
                Err(OutFault::Failed)
            }
        }
    }

    fn begin(&mut self, name: &str) -> Result<(), OutFault>
        ensures ok { OnOk result (self.new ≡ record self.old { written = begun name.now self.old.written }) }
        ensures err { OnErr result (self.new ≡ self.old) }
        ensures memory { result ≡ Err OutFault.Failed → ⊥ }
        ensures after { AfterWrites (result ≡ Err OutFault.Failed) (seen_sure self.old) (seen_sure self.new) }
    {
        self.written.begin(name)
    }

    fn append(&mut self, bytes: &[u8]) -> Result<(), OutFault>
        requires { IsOpen self.old.written }
        ensures ok { OnOk result (self.new ≡ record self.old { written = appended bytes.now self.old.written }) }
        ensures err { OnErr result (self.new ≡ self.old) }
        ensures memory { result ≡ Err OutFault.Failed → ⊥ }
        ensures after { AfterWrites (result ≡ Err OutFault.Failed) (seen_sure self.old) (seen_sure self.new) }
    {
        self.written.append(bytes)
    }

    fn finish(&mut self) -> Result<(), OutFault>
        requires { IsOpen self.old.written }
        ensures done { IsOk result }
        ensures finished { self.new ≡ record self.old { written = finished self.old.written } }
        ensures after { AfterWrites (result ≡ Err OutFault.Failed) (seen_sure self.old) (seen_sure self.new) }
    {
        self.written.finish();
        Ok(())
    }
}
