//! Which part a task reads.

ghost use Rattle.std.specs.Prelude.{◌≡◌};
ghost use Rattle.sparse_rounds.specs.Row.{same_bool};
ghost use Rattle.row_machine.specs.Mail.{PartIs, is_wanted};

use crate::mail::Part;

fn same(a: bool, b: bool) -> bool
    ensures { result ≡ same_bool a b }
{
    if a { b } else { !b }
}

fn wanted(part: &Part, round: u64, block: u64, high: bool) -> bool
    ensures { result ≡ is_wanted round block high part.now }
{
    if part.round == round {
        if block == part.block {
            same(high, part.high)
        } else {
            false
        }
    } else {
        false
    }
}

/// The total that was sent in a round to a side of a block, or 0.
pub fn part_of(mail: &[Part], round: u64, block: u64, high: bool) -> u64
    ensures { PartIs mail.now round block high result }
{
    for part in mail {
        if wanted(part, round, block, high) {
            return part.total;
        }
    }
    0
}
