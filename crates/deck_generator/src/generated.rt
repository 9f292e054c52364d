ghost use Rattle.std.specs.Prelude.{◌≡◌, ◌<◌, ◌^◌, IfOk};
ghost use Rattle.deck_generator.specs.Generated.{generated};

use crate::blocks::{add_boxes, add_mesh, add_pool, add_rules};
use crate::form::form_of;
use input_file::{Deck, NoMemory};
use std::alloc::Global;

/// The deck of a seed: the large one, or the small one.
///
/// Its numbers are drawn one after another, each the one before times 1,103,515,245 and 12,345 more, modulo
/// 2^31, the seed being the first.
pub fn generate(alloc: Global, seed: u32, large: bool) -> Result<Deck, NoMemory>
    requires { seed < 2 ^ 31 }
    ensures { IfOk result (λ deck. deck ≡ generated seed large) }
{
    let form = form_of(large);
    let mut deck = Deck::new(alloc);
    add_mesh(alloc, &mut deck, &form)?;
    add_pool(alloc, &mut deck, &form, seed)?;
    add_boxes(alloc, &mut deck, &form, seed)?;
    add_rules(alloc, &mut deck)?;
    Ok(deck)
}
