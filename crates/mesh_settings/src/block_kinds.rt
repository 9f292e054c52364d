//! The blocks of a deck that come in any number: kinds, names, counts.

ghost use Rattle.std.specs.Prelude.{◌≤◌, IfOk, length};
ghost use Rattle.deck_values.specs.Reading.{Gives};
ghost use Rattle.mesh_settings.specs.BlockKinds.{statics, boxes, reactions, criteria, block_names};
ghost use Rattle.mesh_settings.specs.Limits.{most_statics, most_boxes, most_reactions, most_criteria};

use crate::limits::{MOST_BOXES, MOST_CRITERIA, MOST_REACTIONS, MOST_STATICS};
use crate::words::Mode;
use deck_values::{ProblemFault, names_within};
use input_file::Deck;
use package_fields::{Items, Name};
use std::alloc::Global;

/// The names of the blocks of the four kinds that are counted, each in deck order.
#[derive(Drop)]
pub struct BlockNames {
    pub statics: Items<Name>,
    pub boxes: Items<Name>,
    pub reactions: Items<Name>,
    pub criteria: Items<Name>,
}

/// Finds the blocks of the four kinds, and counts them in order.
#[tactic(auto, unfolding(crate::specs::BlockKinds::block_names))]
pub fn find_blocks(alloc: Global, deck: &Deck, mode: Mode) -> Result<BlockNames, ProblemFault>
    ensures value { Gives result (block_names deck.now mode) }
    ensures statics { IfOk result (λ names. length names.statics ≤ most_statics) }
    ensures boxes { IfOk result (λ names. length names.boxes ≤ most_boxes) }
    ensures reactions { IfOk result (λ names. length names.reactions ≤ most_reactions) }
    ensures criteria { IfOk result (λ names. length names.criteria ≤ most_criteria) }
{
    let statics = find_statics(alloc, deck, mode)?;
    let boxes = find_boxes(alloc, deck)?;
    let reactions = find_reactions(alloc, deck)?;
    let criteria = find_criteria(alloc, deck, mode)?;
    Ok(BlockNames {
        statics,
        boxes,
        reactions,
        criteria,
    })
}

#[tactic(auto, unfolding(crate::specs::BlockKinds::statics))]
fn find_statics(alloc: Global, deck: &Deck, mode: Mode) -> Result<Items<Name>, ProblemFault>
    ensures value { Gives result (statics deck.now mode) }
    ensures few { IfOk result (λ names. length names ≤ most_statics) }
{
    match mode {
        Mode::Plain => Ok(Items::new(alloc)),
        Mode::Fixed => names_within(alloc, deck, "static", MOST_STATICS),
        Mode::Adaptive => names_within(alloc, deck, "static", MOST_STATICS),
    }
}

#[tactic(auto, unfolding(crate::specs::BlockKinds::boxes))]
fn find_boxes(alloc: Global, deck: &Deck) -> Result<Items<Name>, ProblemFault>
    ensures value { Gives result (boxes deck.now) }
    ensures few { IfOk result (λ names. length names ≤ most_boxes) }
{
    names_within(alloc, deck, "box", MOST_BOXES)
}

#[tactic(auto, unfolding(crate::specs::BlockKinds::reactions))]
fn find_reactions(alloc: Global, deck: &Deck) -> Result<Items<Name>, ProblemFault>
    ensures value { Gives result (reactions deck.now) }
    ensures few { IfOk result (λ names. length names ≤ most_reactions) }
{
    names_within(alloc, deck, "reaction", MOST_REACTIONS)
}

#[tactic(auto, unfolding(crate::specs::BlockKinds::criteria))]
fn find_criteria(alloc: Global, deck: &Deck, mode: Mode) -> Result<Items<Name>, ProblemFault>
    ensures value { Gives result (criteria deck.now mode) }
    ensures few { IfOk result (λ names. length names ≤ most_criteria) }
{
    match mode {
        Mode::Plain => Ok(Items::new(alloc)),
        Mode::Fixed => Ok(Items::new(alloc)),
        Mode::Adaptive => names_within(alloc, deck, "criterion", MOST_CRITERIA),
    }
}
