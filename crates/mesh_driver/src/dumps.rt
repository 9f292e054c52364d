//! Dumps, written piece by piece.

ghost use Rattle.std.specs.Prelude.{◌≡◌, [], ◌∷◌, Err, IfErr, IfOk, OnErr, OnOk};
ghost use Rattle.std.specs.Option.{ForSome, option_map};
ghost use Rattle.dense_model.specs.RunFiles.{dump_after};
ghost use Rattle.mesh_rules.specs.Files.{dump_file_name};
ghost use Rattle.mesh_outside.specs.Depot.{AfterWrites};
ghost use Rattle.mesh_outside.specs.Gained.{AppendsPrefix, Gains, GainsPrefix, IsClosed, IsOpen, appended};
ghost use Rattle.mesh_texts.specs.Dump.{Steps, joined};
ghost use Rattle.mesh_driver.specs.Files.{whole_file};
ghost use Rattle.mesh_driver.specs.Pieces.{Passes};
ghost use Rattle.mesh_driver.specs.Stops.{StopsWriting};

use crate::DriveFault;
use dense_model::DenseRun;
use mesh_outside::{Depot, OutFault};
use mesh_texts::{DumpWalk, dump_file_name};
use std::alloc::Global;

/// The number of bytes from which on the pieces of a dump that were collected are appended to its file.
const LARGE: usize = 65_536;

/// Writes the dump of the cycle that was run.
pub(crate) fn write_dump<'a, D: Depot>(
    alloc: Global,
    run: &DenseRun<'a>,
    prefix: &str,
    depot: &mut D,
) -> Result<(), DriveFault>
    requires { ForSome (D.seen depot.old).written IsClosed }
    ensures ok { OnOk result (Gains (D.seen depot.old).written (D.seen depot.new).written
        (whole_file (dump_file_name prefix.now run.now.cycle, dump_after run.now.problem run.now.cycle) ∷ [])) }
    ensures err { IfErr result (StopsWriting (whole_file (dump_file_name prefix.now run.now.cycle, dump_after run.now.problem run.now.cycle) ∷ [])
        (D.seen depot.old).written (D.seen depot.new).written) }
    ensures after { AfterWrites (result ≡ Err DriveFault.WriteFault) (D.seen depot.old) (D.seen depot.new) }
{
    let name = dump_file_name(alloc, prefix, run.cycles())?;
    let mut walk = run.walk();
    write_pieces(alloc, name.as_str(), &mut walk, depot)?;
    Ok(())
}

/// Writes a file of the pieces that are still to come in a walk.
fn write_pieces<'a, D: Depot>(
    alloc: Global,
    name: &str,
    walk: &mut DumpWalk<'a>,
    depot: &mut D,
) -> Result<(), OutFault>
    requires { ForSome (D.seen depot.old).written IsClosed }
    ensures ok { OnOk result (Gains (D.seen depot.old).written (D.seen depot.new).written
        (whole_file (name.now, joined walk.old) ∷ [])) }
    ensures err { OnErr result (GainsPrefix (D.seen depot.old).written (D.seen depot.new).written
        (whole_file (name.now, joined walk.old) ∷ [])) }
    ensures after { AfterWrites (result ≡ Err OutFault.Failed) (D.seen depot.old) (D.seen depot.new) }
{
    depot.begin(name)?;
    append_pieces(alloc, walk, depot)?;
    depot.finish()
}

/// Appends the pieces that are still to come to the unfinished file. They pass through a buffer, which holds one piece
/// more than `LARGE` bytes at most.
fn append_pieces<'a, D: Depot>(
    alloc: Global,
    walk: &mut DumpWalk<'a>,
    depot: &mut D,
) -> Result<(), OutFault>
    requires { ForSome (D.seen depot.old).written IsOpen }
    ensures ok { OnOk result ((D.seen depot.new).written
        ≡ option_map (appended (joined walk.old)) (D.seen depot.old).written) }
    ensures err { OnErr result (AppendsPrefix (joined walk.old) (D.seen depot.old).written (D.seen depot.new).written) }
    ensures after { AfterWrites (result ≡ Err OutFault.Failed) (D.seen depot.old) (D.seen depot.new) }
{
    let mut buffer = Vec::new(alloc);
    'pieces: while push_piece(walk, &mut buffer)? {
        append_large(&mut buffer, depot)?;
    }
    depot.append(buffer.as_slice())
}

/// Adds the next piece to a buffer, where there is one.
fn push_piece<'a>(walk: &mut DumpWalk<'a>, buffer: &mut Vec<u8>) -> Result<bool, OutFault>
    ensures step { IfOk result (λ more. Steps more walk.old walk.new buffer.old.items buffer.new.items) }
    ensures memory { result ≡ Err OutFault.Failed → ⊥ }
{
    match walk.next(buffer) {
        Ok(more) => Ok(more),
        Err(_) => Err(OutFault::NoMemory),
    }
}

/// Appends what is in a buffer to the unfinished file, where it is large, and empties the buffer.
fn append_large<D: Depot>(buffer: &mut Vec<u8>, depot: &mut D) -> Result<(), OutFault>
    requires { ForSome (D.seen depot.old).written IsOpen }
    ensures ok { OnOk result (Passes buffer.old.items buffer.new.items (D.seen depot.old).written
        (D.seen depot.new).written) }
    ensures err { OnErr result (AppendsPrefix buffer.old.items (D.seen depot.old).written (D.seen depot.new).written) }
    ensures after { AfterWrites (result ≡ Err OutFault.Failed) (D.seen depot.old) (D.seen depot.new) }
{
    if buffer.len() < LARGE {
        return Ok(());
    }
    depot.append(buffer.as_slice())?;
    buffer.clear();
    Ok(())
}
