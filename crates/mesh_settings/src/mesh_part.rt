//! The keys that the blocks of several kinds share: a part of the mesh, a field's label, an amount.

ghost use Rattle.std.specs.Prelude.{◌≢◌, ◌≤◌, ◌<◌, IfOk, length};
ghost use Rattle.deck_values.specs.Reading.{Gives};
ghost use Rattle.mesh_settings.specs.MeshPart.{IsPart, span_at, part, label, other_label, amount, lower_amount};
ghost use Rattle.mesh_settings.specs.Sound.{IsSize};
ghost use Rattle.mesh_settings.specs.Limits.{greatest_total};

use crate::limits::GREATEST_TOTAL;
use deck_values::{BlockReader, ProblemFault};
use package_fields::Registry;

/// A part of the mesh, in root cells with both ends included.
#[derive(Clone, Copy)]
pub struct Part {
    pub lo: [u32; 3],
    pub hi: [u32; 3],
}

/// A part of the mesh: by default all of it.
#[tactic(auto, unfolding(crate::specs::MeshPart::part))]
pub fn read_part(block: &BlockReader, size: [u32; 3]) -> Result<Part, ProblemFault>
    requires { IsSize size }
    ensures value { Gives result (part block.now.deck.now size block.now.block.now) }
    ensures sound { IfOk result (λ p. IsPart size p.lo p.hi) }
{
    let (low1, high1) = read_span(block, "lo1", "hi1", size[0])?;
    let (low2, high2) = read_span(block, "lo2", "hi2", size[1])?;
    let (low3, high3) = read_span(block, "lo3", "hi3", size[2])?;
    Ok(Part {
        lo: [low1, low2, low3],
        hi: [high1, high2, high3],
    })
}

/// The first and the last cell of a part along an axis of so many cells.
#[tactic(auto, unfolding(crate::specs::MeshPart::span_at))]
fn read_span(
    block: &BlockReader,
    low: &str,
    high: &str,
    cells: u32,
) -> Result<(u32, u32), ProblemFault>
    requires { 1 ≤ cells }
    ensures value { Gives result (span_at block.now.deck.now block.now.block.now low.now high.now cells) }
    ensures ordered { IfOk result (λ span. span.0 ≤ span.1) }
    ensures within { IfOk result (λ span. span.1 < cells) }
{
    let last = u64::from(cells - 1);
    let lo = block.number(low, 0, last, Some(0))?;
    let hi = block.number(high, lo, last, Some(last))?;
    Ok((lo as u32, hi as u32))
}

/// The number of the field with the label at a key.
#[tactic(auto, unfolding(crate::specs::MeshPart::label))]
pub fn read_label(block: &BlockReader, fields: &Registry, key: &str) -> Result<u32, ProblemFault>
    ensures value { Gives result (label block.now.deck.now fields.now.fields block.now.block.now key.now) }
    ensures within { IfOk result (λ field. field < length fields.now.fields) }
{
    match block.text(key) {
        Some(text) => match fields.find(text) {
            Some(field) => Ok(field),
            None => Err(block.bad_value(key)),
        },
        None => Err(block.missing(key)),
    }
}

/// The number of the field with the label at a key, which is another field than the first.
#[tactic(auto, unfolding(crate::specs::MeshPart::other_label))]
pub fn read_other_label(
    block: &BlockReader,
    fields: &Registry,
    key: &str,
    first: u32,
) -> Result<u32, ProblemFault>
    ensures value { Gives result (other_label block.now.deck.now fields.now.fields block.now.block.now key.now first) }
    ensures within { IfOk result (λ field. field < length fields.now.fields) }
    ensures other { IfOk result (λ field. field ≢ first) }
{
    let second = read_label(block, fields, key)?;
    if second != first {
        Ok(second)
    } else {
        Err(block.bad_value(key))
    }
}

/// An amount, which is required.
#[tactic(auto, unfolding(crate::specs::MeshPart::amount))]
pub fn read_amount(block: &BlockReader, key: &str) -> Result<u64, ProblemFault>
    ensures value { Gives result (amount block.now.deck.now block.now.block.now key.now) }
    ensures most { IfOk result (λ a. a ≤ greatest_total) }
{
    block.number(key, 0, GREATEST_TOTAL, None)
}

/// An amount that is at most another.
#[tactic(auto, unfolding(crate::specs::MeshPart::lower_amount))]
pub fn read_lower_amount(block: &BlockReader, key: &str, most: u64) -> Result<u64, ProblemFault>
    ensures value { Gives result (lower_amount block.now.deck.now block.now.block.now key.now most) }
    ensures most { IfOk result (λ a. a ≤ most) }
{
    let amount = read_amount(block, key)?;
    if amount <= most {
        Ok(amount)
    } else {
        Err(block.bad_value(key))
    }
}
