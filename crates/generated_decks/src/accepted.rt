ghost use Rattle.std.specs.Prelude.{◌≡◌, ℕ, ◌<◌, ◌^◌, Bool, Ok, IfOk};
ghost use Rattle.deck_generator.specs.Generated.{generated};
ghost use Rattle.problem_set.specs.Problems.{problem};
ghost use Rattle.problem_set.specs.SettingsOf.{settings_of};
ghost use Rattle.generated_decks.specs.Accepted.{IsAccepted};

use deck_generator::generate;
use input_file::NoMemory;
use problem_set::{Problem, read_problem};
use std::alloc::Global;

/// The deck of every seed gives a problem, the large one and the small one.
pub fn generated_decks_are_accepted()
    ensures { (seed : ℕ) → seed < 2 ^ 31 → (large : Bool) → IsAccepted (generated seed large) }
{}

/// The problem of the deck of a seed: the large one, or the small one.
///
/// Only want of memory refuses it.
pub fn generated_problem(alloc: Global, seed: u32, large: bool) -> Result<Problem, NoMemory>
    requires { seed < 2 ^ 31 }
    ensures { IfOk result (λ p. problem (generated seed large) ≡ Ok (settings_of p)) }
{
    let deck = generate(alloc, seed, large)?;
    match read_problem(alloc, &deck) {
        Ok(problem) => Ok(problem),
        Err(_) => Err(NoMemory),
    }
}
