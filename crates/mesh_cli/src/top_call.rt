ghost use Rattle.std.specs.Prelude.{map, string_bytes};
ghost use Rattle.std.specs.Option.{ForSome};
ghost use Rattle.mesh_outside.specs.Gained.{IsClosed};
ghost use Rattle.mesh_cli.specs.TopCall.{Ends, outside};

use crate::steps::outcome_of;
use mesh_outcome::{Status, report};
use mesh_outside::{Depot, Sink};
use std::alloc::Global;

/// Reads the words after the program's name, takes the file that they name or makes the deck of their
/// seed, with the overrides; prints the deck, or runs the problem, writes its files and prints in one
/// line how that ended.
pub fn mesh_plain<D: Depot, K: Sink>(
    alloc: Global,
    words: &[String],
    depot: &mut D,
    out: &mut K,
) -> Status
    requires { ForSome (D.seen depot.old).written IsClosed }
    ensures { let before = outside (D.seen depot.old) (K.seen out.old) in
        let after = outside (D.seen depot.new) (K.seen out.new) in
        Ends (map string_bytes words.now) before after result }
{
    let outcome = outcome_of(alloc, words, depot);
    report(alloc, &outcome, out)
}
