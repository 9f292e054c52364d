ghost use Rattle.std.specs.Prelude.{◌≡◌, ◌++◌, ◌↔◌, Some, Err, OnOk, OnErr};
ghost use Rattle.mesh_outside.specs.Fault.{counted, next};
ghost use Rattle.mesh_outside.specs.MemSink.{opening, seen_sink};
ghost use Rattle.mesh_outside.specs.Sink.{AfterPrint};

use crate::{OutFault, Sink};
use std::alloc::Global;
use std::marker::Model;

/// A sink in memory, which tells what was printed, and of which one chosen call fails.
#[derive(Debug, Drop)]
pub struct MemSink {
    printed: Vec<u8>,
    fail_at: u64,
    calls: u64,
    faults: u64,
}

impl Model for MemSink {
    ghost use Rattle.mesh_outside.specs.MemSink.{SinkState};

    ghost Value = { SinkState };

    ghost view = { λ s. record { printed = s.printed.items; fail_at = s.fail_at; calls = s.calls; faults = s.faults } };
}

impl MemSink {
    /// A sink of which the call of this number fails, counted from 1; with 0 no call does.
    pub fn new(alloc: Global, fail_at: u64) -> MemSink
        ensures { result ≡ opening fail_at }
    {
        MemSink {
            printed: Vec::new(alloc),
            fail_at,
            calls: 0,
            faults: 0,
        }
    }

    /// All that was printed.
    pub fn printed(&self) -> &[u8]
        ensures { result.now ≡ self.now.printed }
    {
        self.printed.as_slice()
    }
}

impl Sink for MemSink {
    ghost use Rattle.mesh_outside.specs.MemSink.{seen_sink};

    ghost seen = { seen_sink };

    fn print(&mut self, bytes: &[u8]) -> Result<(), OutFault>
        ensures ok { OnOk result (self.new.printed ≡ self.old.printed ++ bytes.now) }
        ensures err { OnErr result (self.new.printed ≡ self.old.printed) }
        ensures fails { (result ≡ Err OutFault.Failed) ↔ (self.old.fail_at ≡ next self.old.calls) }
        ensures others { self.new ≡ record self.old {
          calls = next self.old.calls;
          printed = self.new.printed;
          faults =
              counted result self.old.faults;
        } }
        ensures after { AfterPrint result (seen_sink self.old) (seen_sink self.new) }
    {
        self.calls = self.calls.saturating_add(1);
        if self.calls == self.fail_at {
            self.faults = self.faults.saturating_add(1);
            return Err(OutFault::Failed);
        }
        self.printed.extend_from_slice(bytes)?;
        Ok(())
    }
}
