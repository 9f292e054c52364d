//! Reading all blocks of a kind.

ghost use Rattle.std.specs.Prelude.{◌≡◌, IfOk, All, Result, length};
ghost use Rattle.input_file.specs.Texts.{Text};
ghost use Rattle.input_file.specs.Blocks.{Blocks};
ghost use Rattle.deck_values.specs.declared.fault.ProblemFault.{ProblemFault as Fault};
ghost use Rattle.deck_values.specs.Reading.{Gives, each};

use crate::block_reader::BlockReader;
use crate::fault::ProblemFault;
use input_file::Deck;
use package_fields::{Items, Name};
use std::alloc::Global;

/// How a block of a kind is read.
pub trait BlockForm {
    /// What a block of the kind says.
    type Entry: Drop;

    ghost entry: { Self → Blocks → Text → Result Self.Entry Fault };

    ghost is_sound: { Self → Self.Entry → Type 0 };

    /// Reads the keys of a block.
    fn read(&self, block: &BlockReader) -> Result<Self::Entry, ProblemFault>
        ensures value { Gives result (entry self.now block.now.deck.now block.now.block.now) }
        ensures sound { IfOk result (is_sound self.now) };
}

/// Reads the blocks of these names, in order.
pub fn read_blocks<F: BlockForm>(
    alloc: Global,
    deck: &Deck,
    names: &[Name],
    form: &F,
) -> Result<Items<F::Entry>, ProblemFault>
    ensures value { Gives result (each (F.entry form.now deck.now) names.now) }
    ensures sound { IfOk result (All (F.is_sound form.now)) }
    ensures as_many { IfOk result (λ list. length list ≡ length names.now) }
{
    let mut list = Items::new(alloc);
    for name in names {
        let block = BlockReader::new(alloc, deck, name.as_str());
        list.push(form.read(&block)?)?;
    }
    Ok(list)
}
