ghost use Rattle.std.specs.Prelude.{◌≡◌, ◌++◌, OnOk, OnErr};
ghost use Rattle.std.specs.Option.{option_map};
ghost use Rattle.mesh_outside.specs.Sink.{SinkSeen, AfterPrint, PrintsPrefix};

use crate::OutFault;

/// What is printed to. Its count of faults never falls, and a call answers `Failed` only where the
/// count rose in that call. Where a sink counts exactly, the count rises by one at each `Failed`, or
/// stands at its type's end, and else stands.
pub trait Sink {
    /// What contracts see of it: what was printed, where it tells that, and its count of faults.
    ghost seen: { Self → SinkSeen };

    /// Prints bytes behind what was printed before. When it fails, a prefix of them was printed.
    fn print(&mut self, bytes: &[u8]) -> Result<(), OutFault>
        ensures ok { OnOk result ((seen self.new).printed
            ≡ option_map (λ before. before ++ bytes.now) (seen self.old).printed) }
        ensures err { OnErr result (PrintsPrefix bytes.now (seen self.old).printed (seen self.new).printed) }
        ensures after { AfterPrint result (seen self.old) (seen self.new) };
}
