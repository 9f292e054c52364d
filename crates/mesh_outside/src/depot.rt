ghost use Rattle.std.specs.Prelude.{◌≡◌, ℕ, ◌≤◌, length, Err, OnOk, OnErr, IfOk};
ghost use Rattle.std.specs.Option.{option_map, ForSome};
ghost use Rattle.mesh_outside.specs.Depot.{DepotSeen, AfterReads, AfterWrites, Reads};
ghost use Rattle.mesh_outside.specs.Gained.{IsClosed, IsOpen, begun, appended, finished, AppendsPrefix};

use crate::OutFault;

/// A place of files: inputs that are read by name, and new files that are written one at a time.
///
/// Counts of faults never fall, and a call answers `Failed` only where its own count rose in that
/// call: for a read that of the name, for the other calls that of write faults. Where a depot counts
/// exactly, the count rises by one at each `Failed`, or stands at its type's end, and no count rises else.
pub trait Depot {
    /// What contracts see of it: inputs and files, where it tells them, and counts of faults.
    ghost seen: { Self → DepotSeen };

    /// Reads the bytes of an input from a place on into the start of `into`, and answers how many:
    /// 0 exactly where `into` is empty or nothing is left there. An absent name is a failure.
    fn read_piece(&mut self, name: &str, from: u64, into: &mut [u8]) -> Result<usize, OutFault>
        ensures piece { Reads (seen self.old).inputs name.now from into.old into.new result }
        ensures within { IfOk result (λ count. count ≤ length into.old) }
        ensures after { AfterReads name.now (result ≡ Err OutFault.Failed) (seen self.old) (seen self.new) };

    /// Begins a new file, empty and unfinished. When it fails, nothing was added.
    fn begin(&mut self, name: &str) -> Result<(), OutFault>
        requires { ForSome (seen self.old).written IsClosed }
        ensures ok { OnOk result ((seen self.new).written ≡ option_map (begun name.now) (seen self.old).written) }
        ensures err { OnErr result ((seen self.new).written ≡ (seen self.old).written) }
        ensures after { AfterWrites (result ≡ Err OutFault.Failed) (seen self.old) (seen self.new) };

    /// Adds bytes to the unfinished file. When it fails, a prefix of them was added.
    fn append(&mut self, bytes: &[u8]) -> Result<(), OutFault>
        requires { ForSome (seen self.old).written IsOpen }
        ensures ok { OnOk result ((seen self.new).written ≡ option_map (appended bytes.now) (seen self.old).written) }
        ensures err { OnErr result (AppendsPrefix bytes.now (seen self.old).written (seen self.new).written) }
        ensures after { AfterWrites (result ≡ Err OutFault.Failed) (seen self.old) (seen self.new) };

    /// Marks the unfinished file as finished. When it fails, the file stays unfinished.
    fn finish(&mut self) -> Result<(), OutFault>
        requires { ForSome (seen self.old).written IsOpen }
        ensures ok { OnOk result ((seen self.new).written ≡ option_map finished (seen self.old).written) }
        ensures err { OnErr result ((seen self.new).written ≡ (seen self.old).written) }
        ensures after { AfterWrites (result ≡ Err OutFault.Failed) (seen self.old) (seen self.new) };
}
