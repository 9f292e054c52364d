//! The stronger of two wishes.

ghost use Rattle.std.specs.Prelude.{◌≡◌};
ghost use Rattle.mesh_rules.specs.Tags.{stronger as stronger_of};

use mesh_rules::Wish;

/// The stronger of two wishes: to refine, then to stay, then to derefine.
pub fn stronger(a: Wish, b: Wish) -> Wish
    ensures { result ≡ stronger_of a b }
{
    match a {
        Wish::Refine => Wish::Refine,
        Wish::Same => match b {
            Wish::Refine => Wish::Refine,
            Wish::Same => Wish::Same,
            Wish::Derefine => Wish::Same,
        },
        Wish::Derefine => b,
    }
}
