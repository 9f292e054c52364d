ghost use Rattle.std.specs.Prelude.{◌≡◌, ℕ, ◌≤◌, ◌/◌, ◌⊎◌, length, take, true, false, Some, None, Contains, Err};
ghost use Rattle.std.specs.Prelude.{IsTrue, IsErr, OnOk, OnErr, IfOk};
ghost use Rattle.std.specs.Option.{ForSome};
ghost use Rattle.mesh_outside.specs.Depot.{AfterReads, AfterWrites, Reads};
ghost use Rattle.mesh_outside.specs.Fault.{counted, next};
ghost use Rattle.mesh_outside.specs.Files.{input_of};
ghost use Rattle.mesh_outside.specs.Gained.{IsClosed, IsOpen, begun, appended, finished, AppendsPrefix};
ghost use Rattle.mesh_outside.specs.MemDepot.{opening, FailsExactly, piece_of, CountsRead, seen_mem};

use crate::mem_read::read_from;
use crate::{Depot, Fail, Fails, Files, OutFault, Written};
use std::alloc::Global;
use std::marker::Model;

/// A depot in memory, which tells everything, and of which chosen calls fail. It reads at most a
/// given number of bytes a call. Its calls that take no memory never answer `NoMemory`.
#[derive(Debug, Drop)]
pub struct MemDepot {
    inputs: Files,
    piece: usize,
    fails: Fails,
    written: Written,
    reads: u64,
    begins: u64,
    finishes: u64,
    is_fresh: bool,
    failed_reads: u64,
    absent_reads: u64,
    failed_writes: u64,
}

impl Model for MemDepot {
    ghost use Rattle.std.specs.Prelude.{◌≤◌};
    ghost use Rattle.mesh_outside.specs.MemDepot.{MemState};

    ghost Value = { MemState };

    ghost view = { λ d. record {
      inputs = d.inputs;
      piece = d.piece;
      fails = d.fails;
      written = d.written;
      reads = d.reads;
      begins = d.begins;
      finishes = d.finishes;
      is_fresh = d.is_fresh;
      failed_reads = d.failed_reads;
      absent_reads = d.absent_reads;
      failed_writes = d.failed_writes;
    } };

    ghost invariant = { λ d. 1 ≤ d.piece };
}

impl MemDepot {
    /// A depot with these inputs, of which these calls fail.
    pub fn new(alloc: Global, inputs: Files, piece: usize, fails: Fails) -> MemDepot
        requires { 1 ≤ piece }
        ensures { result ≡ opening inputs piece fails }
    {
        MemDepot {
            inputs,
            piece,
            fails,
            written: Written::new(alloc),
            reads: 0,
            begins: 0,
            finishes: 0,
            is_fresh: false,
            failed_reads: 0,
            absent_reads: 0,
            failed_writes: 0,
        }
    }

    /// The files gained so far.
    pub fn written(&self) -> &Written
        ensures { result.now ≡ self.now.written }
    {
        &self.written
    }
}

impl Depot for MemDepot {
    ghost use Rattle.mesh_outside.specs.MemDepot.{seen_mem};

    ghost seen = { seen_mem };

    fn read_piece(&mut self, name: &str, from: u64, into: &mut [u8]) -> Result<usize, OutFault>
        ensures piece { Reads (Some self.old.inputs) name.now from into.old into.new result }
        ensures within { IfOk result (λ count. count ≤ length into.old) }
        ensures amount { IfOk result (λ count. ForSome (input_of self.old.inputs name.now) (λ bytes. count
            ≡ piece_of self.old.piece bytes from (length into.old))) }
        ensures fails { FailsExactly result (Contains self.old.fails (Fail.Read (next self.old.reads))
            ⊎ (input_of self.old.inputs name.now ≡ None)) }
        ensures memory { result ≡ Err OutFault.NoMemory → ⊥ }
        ensures counts { CountsRead name.now result self.old self.new }
        ensures after { AfterReads name.now (result ≡ Err OutFault.Failed) (seen_mem self.old) (seen_mem self.new) }
        ensures others { self.new ≡ record self.old {
          reads = next self.old.reads;
          failed_reads = self.new.failed_reads;
          absent_reads = self.new.absent_reads;
        } }
    {
        self.reads = self.reads.saturating_add(1);
        if self.fails.as_slice().contains(&Fail::Read(self.reads)) {
            self.failed_reads = self.failed_reads.saturating_add(1);
            return Err(OutFault::Failed);
        }
        match read_from(&self.inputs, name, from, into, self.piece) {
            Some(count) => Ok(count),
            None => {
                self.absent_reads = self.absent_reads.saturating_add(1);
                Err(OutFault::Failed)
            }
        }
    }

    fn begin(&mut self, name: &str) -> Result<(), OutFault>
        requires { IsClosed self.old.written }
        ensures ok { OnOk result (self.new.written ≡ begun name.now self.old.written) }
        ensures err { OnErr result (self.new.written ≡ self.old.written) }
        ensures fails { FailsExactly result (Contains self.old.fails (Fail.Begin (next self.old.begins))) }
        ensures after { AfterWrites (result ≡ Err OutFault.Failed) (seen_mem self.old) (seen_mem self.new) }
        ensures others { self.new ≡ record self.old {
          begins = next self.old.begins;
          is_fresh = true;
          written = self.new.written;
          failed_writes = counted result self.old.failed_writes;
        } }
    {
        self.begins = self.begins.saturating_add(1);
        self.is_fresh = true;
        if self.fails.as_slice().contains(&Fail::Begin(self.begins)) {
            self.failed_writes = self.failed_writes.saturating_add(1);
            return Err(OutFault::Failed);
        }
        self.written.begin(name)
    }

    fn append(&mut self, bytes: &[u8]) -> Result<(), OutFault>
        requires { IsOpen self.old.written }
        ensures ok { OnOk result (self.new.written ≡ appended bytes.now self.old.written) }
        ensures err { OnErr result (AppendsPrefix bytes.now (Some self.old.written) (Some self.new.written)) }
        ensures fails { IsTrue self.old.is_fresh → Contains self.old.fails (Fail.AppendOf (length self.old.written))
            → IsErr result }
        ensures fresh_only { result ≡ Err OutFault.Failed → IsTrue self.old.is_fresh }
        ensures named_only { result ≡ Err OutFault.Failed
            → Contains self.old.fails (Fail.AppendOf (length self.old.written)) }
        ensures half { result ≡ Err OutFault.Failed
            → self.new.written ≡ appended (take (length bytes.now / 2) bytes.now) self.old.written }
        ensures after { AfterWrites (result ≡ Err OutFault.Failed) (seen_mem self.old) (seen_mem self.new) }
        ensures others { self.new ≡ record self.old {
          is_fresh = false;
          written = self.new.written;
          failed_writes =
              counted result self.old.failed_writes;
        } }
    {
        let was_fresh = self.is_fresh;
        self.is_fresh = false;
        let file = Fail::AppendOf(self.written.len() as u64);
        if was_fresh && self.fails.as_slice().contains(&file) {
            self.written.append(&bytes[..bytes.len() / 2])?;
            self.failed_writes = self.failed_writes.saturating_add(1);
            return Err(OutFault::Failed);
        }
        self.written.append(bytes)
    }

    fn finish(&mut self) -> Result<(), OutFault>
        requires { IsOpen self.old.written }
        ensures ok { OnOk result (self.new.written ≡ finished self.old.written) }
        ensures err { OnErr result (self.new.written ≡ self.old.written) }
        ensures fails { FailsExactly result (Contains self.old.fails (Fail.Finish (next self.old.finishes))) }
        ensures memory { result ≡ Err OutFault.NoMemory → ⊥ }
        ensures after { AfterWrites (result ≡ Err OutFault.Failed) (seen_mem self.old) (seen_mem self.new) }
        ensures others { self.new ≡ record self.old {
          finishes = next self.old.finishes;
          written = self.new.written;
          failed_writes = counted result self.old.failed_writes;
        } }
    {
        self.finishes = self.finishes.saturating_add(1);
        if self.fails.as_slice().contains(&Fail::Finish(self.finishes)) {
            self.failed_writes = self.failed_writes.saturating_add(1);
            return Err(OutFault::Failed);
        }
        self.written.finish();
        Ok(())
    }
}
