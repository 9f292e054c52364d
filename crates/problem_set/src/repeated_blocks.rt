//! What the blocks of a deck that come in any number say, all kinds together.

ghost use Rattle.std.specs.Prelude.{◌≡◌, ◌≤◌, IfOk, All, length};
ghost use Rattle.deck_values.specs.Reading.{Gives};
ghost use Rattle.problem_set.specs.RepeatedBlocks.{counted_blocks, repeated_blocks};
ghost use Rattle.mesh_settings.specs.Sound.{IsSize};
ghost use Rattle.deck_entries.specs.SoundEntries.{IsMoves};
ghost use Rattle.problem_set.specs.SoundProblem.{AreEntries};
ghost use Rattle.mesh_settings.specs.Limits.{greatest_levels, most_statics, most_boxes, most_reactions, most_criteria};

use crate::packages::{FieldTable, read_fields};
use deck_entries::{
    BoxForm, Criterion, CriterionForm, Reaction, ReactionForm, StartBox, StaticAt, StaticForm,
};
use deck_values::{ProblemFault, read_blocks};
use input_file::Deck;
use mesh_settings::{BlockNames, Mode, find_blocks};
use package_fields::{Items, Registry};
use std::alloc::Global;

/// The blocks of the four kinds that are counted.
#[derive(Drop)]
pub struct CountedBlocks {
    pub statics: Items<StaticAt>,
    pub boxes: Items<StartBox>,
    pub reactions: Items<Reaction>,
    pub criteria: Items<Criterion>,
}

/// The fields, and the blocks of the four kinds that are counted.
#[derive(Drop)]
pub struct RepeatedBlocks {
    pub field_table: FieldTable,
    pub counted: CountedBlocks,
}

/// Counts the blocks of each kind, and reads the fields and then the other kinds.
#[tactic(auto, unfolding(crate::specs::RepeatedBlocks::repeated_blocks))]
pub fn read_repeated_blocks(
    alloc: Global,
    deck: &Deck,
    size: [u32; 3],
    mode: Mode,
    levels: u32,
) -> Result<RepeatedBlocks, ProblemFault>
    requires size { IsSize size }
    requires least { 1 ≤ levels }
    requires most { levels ≤ greatest_levels }
    ensures value { Gives result (repeated_blocks deck.now size mode levels) }
    ensures as_many { IfOk result (λ c. length c.field_table.moves ≡ length c.field_table.fields.fields) }
    ensures sound { IfOk result (λ c. All IsMoves c.field_table.moves) }
    ensures counted { IfOk result (λ c. AreEntries size levels
        (length c.field_table.fields.fields) c.counted.statics c.counted.boxes c.counted.reactions c.counted.criteria) }
{
    let names = find_blocks(alloc, deck, mode)?;
    let field_table = read_fields(alloc, deck)?;
    let counted = read_counted_blocks(alloc, deck, size, levels, &field_table.fields, &names)?;
    Ok(RepeatedBlocks {
        field_table,
        counted,
    })
}

/// Reads the blocks of the four kinds, kind by kind.
#[tactic(auto, unfolding(crate::specs::RepeatedBlocks::counted_blocks))]
fn read_counted_blocks(
    alloc: Global,
    deck: &Deck,
    size: [u32; 3],
    levels: u32,
    fields: &Registry,
    names: &BlockNames,
) -> Result<CountedBlocks, ProblemFault>
    requires size { IsSize size }
    requires least { 1 ≤ levels }
    requires most { levels ≤ greatest_levels }
    requires few_statics { length names.now.statics ≤ most_statics }
    requires few_boxes { length names.now.boxes ≤ most_boxes }
    requires few_reactions { length names.now.reactions ≤ most_reactions }
    requires few_criteria { length names.now.criteria ≤ most_criteria }
    ensures value { Gives result (counted_blocks deck.now size levels fields.now.fields names.now) }
    ensures sound { IfOk result (λ e. AreEntries size levels
        (length fields.now.fields) e.statics e.boxes e.reactions e.criteria) }
{
    let statics = read_blocks(
        alloc,
        deck,
        names.statics.as_slice(),
        &StaticForm { size, levels },
    )?;
    let boxes = read_blocks(
        alloc,
        deck,
        names.boxes.as_slice(),
        &BoxForm { size, fields },
    )?;
    let reactions = read_blocks(
        alloc,
        deck,
        names.reactions.as_slice(),
        &ReactionForm { fields },
    )?;
    let criteria = read_blocks(
        alloc,
        deck,
        names.criteria.as_slice(),
        &CriterionForm { levels, fields },
    )?;
    Ok(CountedBlocks {
        statics,
        boxes,
        reactions,
        criteria,
    })
}
