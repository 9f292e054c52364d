//! Setting the keys of a block one after another.

ghost use Rattle.std.specs.Prelude.{◌≡◌, true, OnOk, IsTrue, map};
ghost use Rattle.std.specs.List.{list_all};
ghost use Rattle.input_file.specs.Texts.{is_block_name};
ghost use Rattle.deck_generator.specs.Settings.{setting_of, is_setting, with_settings};

use crate::values::{Value, text_of};
use input_file::{Deck, NoMemory};
use std::alloc::Global;

/// Sets keys of a block in order.
pub fn add_settings(
    alloc: Global,
    deck: &mut Deck,
    block: &str,
    settings: &[(&str, Value)],
) -> Result<(), NoMemory>
    requires block { IsTrue (is_block_name block.now) }
    requires settings { list_all is_setting settings.now ≡ true }
    ensures { OnOk result (deck.new ≡ with_settings deck.old block.now (map setting_of settings.now)) }
{
    for (key, value) in settings {
        let text = text_of(alloc, *value)?;
        deck.set(block, key, text.as_str())?;
    }
    Ok(())
}
