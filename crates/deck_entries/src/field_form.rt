//! How blocks are read that declare fields.

ghost use Rattle.deck_entries.specs.FieldBlocks.{field_block};
ghost use Rattle.deck_entries.specs.SoundEntries.{IsMoves};

use crate::field_blocks::{FieldBlock, read_field_block};
use deck_values::{BlockForm, BlockReader, ProblemFault};

/// How blocks are read that declare fields.
#[derive(Drop)]
pub struct FieldForm;

impl BlockForm for FieldForm {
    type Entry = FieldBlock;

    ghost entry = { λ _. field_block };

    ghost is_sound = { λ _ said. IsMoves said.moves };

    fn read(&self, block: &BlockReader) -> Result<FieldBlock, ProblemFault> {
        read_field_block(block)
    }
}
