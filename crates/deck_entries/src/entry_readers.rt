//! Reading the static boxes, opening boxes, reactions and criteria of a deck.

ghost use Rattle.std.specs.Prelude.{◌≤◌, IfOk, length};
ghost use Rattle.deck_values.specs.Reading.{Gives};
ghost use Rattle.deck_entries.specs.EntryReaders.{static_at, start_box, reaction, method, tolerances, criterion};
ghost use Rattle.mesh_settings.specs.Sound.{IsSize};
ghost use Rattle.deck_entries.specs.SoundEntries.{IsStatic, IsBox, IsReaction, IsCriterion};
ghost use Rattle.mesh_settings.specs.Limits.{greatest_total, greatest_levels};

use crate::entries::{Criterion, Reaction, StartBox, StaticAt};
use deck_values::{BlockForm, BlockReader, ProblemFault};
use mesh_settings::{
    GREATEST_FACTOR, Method, Part, read_amount, read_label, read_lower_amount, read_other_label,
    read_part,
};
use package_fields::Registry;

/// How static boxes are read.
#[derive(Drop)]
pub struct StaticForm {
    pub size: [u32; 3],
    pub levels: u32,
    pub ghost size_sound: { IsSize size },
    pub ghost least: { 1 ≤ levels },
    pub ghost most: { levels ≤ greatest_levels },
}

impl BlockForm for StaticForm {
    type Entry = StaticAt;

    ghost entry = { λ form deck. static_at deck form.size form.levels };

    ghost is_sound = { λ form. IsStatic form.size form.levels };

    fn read(&self, block: &BlockReader) -> Result<StaticAt, ProblemFault> {
        read_static(block, self.size, self.levels)
    }
}

/// How opening boxes are read.
#[derive(Drop)]
pub struct BoxForm<'a> {
    pub size: [u32; 3],
    pub fields: &'a Registry,
    pub ghost size_sound: { IsSize size },
}

impl<'a> BlockForm for BoxForm<'a> {
    type Entry = StartBox;

    ghost entry = { λ form deck. start_box deck form.size form.fields.now.fields };

    ghost is_sound = { λ form. IsBox form.size (length form.fields.now.fields) };

    fn read(&self, block: &BlockReader) -> Result<StartBox, ProblemFault> {
        read_box(block, self.size, self.fields)
    }
}

/// How reactions are read.
#[derive(Drop)]
pub struct ReactionForm<'a> {
    pub fields: &'a Registry,
}

impl<'a> BlockForm for ReactionForm<'a> {
    type Entry = Reaction;

    ghost entry = { λ form deck. reaction deck form.fields.now.fields };

    ghost is_sound = { λ form. IsReaction (length form.fields.now.fields) };

    fn read(&self, block: &BlockReader) -> Result<Reaction, ProblemFault> {
        read_reaction(block, self.fields)
    }
}

/// How criteria are read.
#[derive(Drop)]
pub struct CriterionForm<'a> {
    pub levels: u32,
    pub fields: &'a Registry,
    pub ghost least: { 1 ≤ levels },
    pub ghost most: { levels ≤ greatest_levels },
}

impl<'a> BlockForm for CriterionForm<'a> {
    type Entry = Criterion;

    ghost entry = { λ form deck. criterion deck form.levels form.fields.now.fields };

    ghost is_sound = { λ form. IsCriterion form.levels (length form.fields.now.fields) };

    fn read(&self, block: &BlockReader) -> Result<Criterion, ProblemFault> {
        read_criterion(block, self.levels, self.fields)
    }
}

/// A static box.
#[tactic(auto, unfolding(crate::specs::EntryReaders::static_at))]
fn read_static(block: &BlockReader, size: [u32; 3], levels: u32) -> Result<StaticAt, ProblemFault>
    requires size { IsSize size }
    requires levels { 1 ≤ levels }
    requires most { levels ≤ greatest_levels }
    ensures value { Gives result (static_at block.now.deck.now size levels block.now.block.now) }
    ensures sound { IfOk result (IsStatic size levels) }
{
    let level = block.number("level", 1, u64::from(levels - 1), None)?;
    let Part { lo, hi } = read_part(block, size)?;
    let level = level as u32;
    Ok(StaticAt { level, lo, hi })
}

/// An opening box.
#[tactic(auto, unfolding(crate::specs::EntryReaders::start_box))]
fn read_box(
    block: &BlockReader,
    size: [u32; 3],
    fields: &Registry,
) -> Result<StartBox, ProblemFault>
    requires { IsSize size }
    ensures value { Gives result (start_box block.now.deck.now size fields.now.fields block.now.block.now) }
    ensures sound { IfOk result (IsBox size (length fields.now.fields)) }
{
    let field = read_label(block, fields, "field")?;
    let Part { lo, hi } = read_part(block, size)?;
    let amount = read_amount(block, "amount")?;
    Ok(StartBox {
        field,
        lo,
        hi,
        amount,
    })
}

/// A reaction.
#[tactic(auto, unfolding(crate::specs::EntryReaders::reaction))]
fn read_reaction(block: &BlockReader, fields: &Registry) -> Result<Reaction, ProblemFault>
    ensures value { Gives result (reaction block.now.deck.now fields.now.fields block.now.block.now) }
    ensures sound { IfOk result (IsReaction (length fields.now.fields)) }
{
    let from = read_label(block, fields, "from")?;
    let to = read_other_label(block, fields, "to", from)?;
    let den = block.number("den", 1, GREATEST_FACTOR, None)?;
    let num = block.number("num", 0, den, None)?;
    Ok(Reaction { from, to, num, den })
}

/// A criterion.
#[tactic(auto, unfolding(crate::specs::EntryReaders::criterion))]
fn read_criterion(
    block: &BlockReader,
    levels: u32,
    fields: &Registry,
) -> Result<Criterion, ProblemFault>
    requires levels { 1 ≤ levels }
    requires most { levels ≤ greatest_levels }
    ensures value { Gives result (criterion block.now.deck.now levels fields.now.fields block.now.block.now) }
    ensures sound { IfOk result (IsCriterion levels (length fields.now.fields)) }
{
    let field = read_label(block, fields, "field")?;
    let method = read_method(block)?;
    let (refine_tol, derefine_tol) = read_tolerances(block)?;
    let finest = u64::from(levels - 1);
    let max_level = block.number("max_level", 0, finest, Some(finest))?;
    Ok(Criterion {
        field,
        method,
        refine_tol,
        derefine_tol,
        max_level: max_level as u32,
    })
}

/// How a criterion measures a block.
#[tactic(auto, unfolding(crate::specs::EntryReaders::method))]
fn read_method(block: &BlockReader) -> Result<Method, ProblemFault>
    ensures { Gives result (method block.now.deck.now block.now.block.now) }
{
    match block.text("method") {
        None => Err(block.missing("method")),
        Some(name) => match Method::named(name) {
            Some(method) => Ok(method),
            None => Err(block.bad_value("method")),
        },
    }
}

/// The tolerances of a criterion: above the first a block is refined, below the second it is merged.
#[tactic(auto, unfolding(crate::specs::EntryReaders::tolerances))]
fn read_tolerances(block: &BlockReader) -> Result<(u64, u64), ProblemFault>
    ensures value { Gives result (tolerances block.now.deck.now block.now.block.now) }
    ensures most { IfOk result (λ both. both.0 ≤ greatest_total) }
    ensures ordered { IfOk result (λ both. both.1 ≤ both.0) }
{
    let refine_tol = read_amount(block, "refine_tol")?;
    let derefine_tol = read_lower_amount(block, "derefine_tol", refine_tol)?;
    Ok((refine_tol, derefine_tol))
}
