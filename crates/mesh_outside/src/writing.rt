ghost use Rattle.std.specs.Prelude.{◌≡◌, [], ◌∷◌, true, Err, OnOk, OnErr};
ghost use Rattle.std.specs.Option.{ForSome};
ghost use Rattle.mesh_outside.specs.Depot.{AfterWrites};
ghost use Rattle.mesh_outside.specs.Gained.{IsClosed, file_with, Gains, GainsPrefix};

use crate::{Depot, OutFault};

/// Writes one whole file: begins it, appends its bytes, and finishes it. After a refusal the file is not
/// there, or is there with a prefix of its bytes and unfinished.
pub fn write_file<D: Depot>(depot: &mut D, name: &str, bytes: &[u8]) -> Result<(), OutFault>
    requires { ForSome (D.seen depot.old).written IsClosed }
    ensures ok { OnOk result (Gains (D.seen depot.old).written (D.seen depot.new).written
        (file_with name.now bytes.now true ∷ [])) }
    ensures err { OnErr result (GainsPrefix (D.seen depot.old).written (D.seen depot.new).written
        (file_with name.now bytes.now true ∷ [])) }
    ensures after { AfterWrites (result ≡ Err OutFault.Failed) (D.seen depot.old) (D.seen depot.new) }
{
    depot.begin(name)?;
    depot.append(bytes)?;
    depot.finish()
}
