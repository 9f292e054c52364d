ghost use Rattle.std.specs.Prelude.{◌≡◌, Ok, Err, OnOk, MatchResult};
ghost use Rattle.std.specs.Io.KnownBytes.{Appends};
ghost use Rattle.mesh_outside.specs.Fault.{Counts};

use crate::counting::counted;
use crate::{OutFault, Sink};
use std::io;
use std::io::Write;
use std::marker::Model;

/// Standard output as a sink. It tells nothing of what was printed, and counts each failed call. It takes no
/// memory, so it never answers `NoMemory`.
#[derive(Drop)]
pub struct StdSink<'a, R: Print> {
    output: &'a R,
    faults: u64,
}

impl<'a, R: Print> Model for StdSink<'a, R> {
    ghost use Rattle.std.specs.Prelude.{ℕ};

    ghost Value = { ℕ };

    ghost view = { λ s. s.faults };
}

impl<'a, R: Print> StdSink<'a, R> {
    /// The standard output that the runtime gives.
    pub fn new(output: &'a R) -> StdSink<'a, R>
        ensures { result ≡ 0 }
    {
        StdSink { output, faults: 0 }
    }
}

impl<'a, R: Print> Sink for StdSink<'a, R> {
    ghost use Rattle.mesh_outside.specs.StdSink.{seen_std};

    ghost seen = { seen_std };

    fn print(&mut self, bytes: &[u8]) -> Result<(), OutFault> {
        counted(
            write_whole(&mut io::writer(self.output), bytes),
            &mut self.faults,
        )
    }
}

// Writes all bytes.
fn write_whole<W: Write>(output: &mut W, bytes: &[u8]) -> io::Result<()>
    ensures { OnOk result (Appends (W.contents output.old) (W.contents output.new) bytes.now) }
{
    output.write_all(bytes)
}
