ghost use Rattle.std.specs.Prelude.{◌≡◌, ◌<◌, ◌≤◌, ◌↔◌, [], Some, None, Ok, length, IsTrue, IfSome, IfNone, IfOk, OnOk};
ghost use Rattle.std.specs.Prelude.{OnErr};
ghost use Rattle.std.specs.Option.{option_copied};
ghost use Rattle.std.specs.Str.{bytes_eq};
ghost use Rattle.std.specs.Map.{lookup};
ghost use Rattle.indexmap.specs.IndexMap.{insert_entry};
ghost use Rattle.input_file.specs.Texts.{is_block_name, is_key, is_value};
ghost use Rattle.input_file.specs.Blocks.{entry, name_at, set, with_block};
ghost use Rattle.input_file.specs.WellFormed.{AreKeys};
ghost use Rattle.input_file.specs.Printed.{printed};
ghost use Rattle.input_file.specs.Decks.{deck, greatest_length};

use crate::fault::NoMemory;
use crate::keys::Keys;
use crate::map::TextMap;
use crate::print::print_header;
use std::alloc::Global;
use std::hash::BuildHasherDefault;
use std::marker::Model;

/// The blocks of an input file in the order in which they came, each with a list of keys with values.
#[derive(Drop)]
pub struct Deck {
    blocks: TextMap<Keys>,
}

impl Model for Deck {
    ghost use Rattle.std.specs.Prelude.{List, map as list_map};
    ghost use Rattle.std.specs.String.{string_bytes};
    ghost use Rattle.input_file.specs.Texts.{Text};
    ghost use Rattle.input_file.specs.WellFormed.{AreBlocks};

    ghost Value = { List (Text × List (Text × Text)) };

    ghost view = { λ d. list_map (λ e. (string_bytes e.0, e.1)) d.blocks.entries };

    ghost invariant = { λ d. AreBlocks (list_map (λ e. (string_bytes e.0, e.1)) d.blocks.entries) };
}

impl Deck {
    /// A deck with no block.
    pub fn new(alloc: Global) -> Deck
        ensures { result ≡ [] }
    {
        Deck {
            blocks: TextMap::with_hasher(alloc, BuildHasherDefault::new()),
        }
    }

    /// The value of a key in a block, or None where the block or the key isn't there.
    pub fn get(&self, block: &str, key: &str) -> Option<&str>
        ensures { option_copied result ≡ entry self.now block.now key.now }
    {
        let keys = self.blocks.get(block)?;
        keys.get(key)
    }

    /// The name of the block at an index, or None where there are at most so many blocks.
    pub fn block_name(&self, i: usize) -> Option<&str>
        ensures { option_copied result ≡ name_at self.now i }
    {
        let (name, _) = self.blocks.get_index(i)?;
        Some(name.as_str())
    }

    /// How many blocks there are.
    pub fn len(&self) -> usize
        ensures { result ≡ length self.now }
    {
        self.blocks.len()
    }

    /// Whether there is no block.
    pub fn is_empty(&self) -> bool
        ensures { IsTrue result ↔ (self.now ≡ []) }
    {
        self.blocks.is_empty()
    }

    /// The text of the deck: for each block its header `<name>`, then a line `key = value` for each key.
    ///
    /// Where the text has at most 1,048,576 bytes, `parse` gives the deck back.
    pub fn print(&self) -> Result<Vec<u8>, NoMemory>
        ensures text { IfOk result (λ v. v.items ≡ printed self.now) }
        ensures read_back { IfOk result (λ v. length v.items ≤ greatest_length → deck v.items ≡ Ok self.now) }
    {
        let mut text = String::new(*self.blocks.allocator());
        for i in 0..self.blocks.len() {
            let (name, keys) = self.blocks.get_index(i).unwrap();
            print_header(&mut text, name.as_str())?;
            keys.print(&mut text)?;
        }
        Ok(text.into_bytes())
    }

    /// Sets the value of a key. A key that is there keeps its place, a new one goes last in its block, a new block
    /// last.
    pub fn set(&mut self, block: &str, key: &str, value: &str) -> Result<(), NoMemory>
        requires block { IsTrue (is_block_name block.now) }
        requires key { IsTrue (is_key key.now) }
        requires value { IsTrue (is_value value.now) }
        ensures ok { OnOk result (self.new ≡ set self.old block.now key.now value.now) }
        ensures err { OnErr result (self.new ≡ self.old) }
    {
        match self.index_of(block) {
            Some(index) => self.set_in(index, key, value),
            None => self.add_with(block, key, value),
        }
    }

    /// Adds a block at the end unless it is there, and answers its index.
    pub(crate) fn add_block(&mut self, name: &str) -> Result<usize, NoMemory>
        requires name { IsTrue (is_block_name name.now) }
        ensures ok { OnOk result (self.new ≡ with_block self.old name.now) }
        ensures index { IfOk result (λ i. name_at self.new i ≡ Some name.now) }
        ensures err { OnErr result (self.new ≡ self.old) }
    {
        match self.index_of(name) {
            Some(index) => Ok(index),
            None => {
                let index = self.blocks.len();
                let alloc = *self.blocks.allocator();
                self.insert(name, Keys::new(alloc))?;
                Ok(index)
            }
        }
    }

    /// Sets the value of a key in the block at an index.
    pub(crate) fn set_in(&mut self, index: usize, key: &str, value: &str) -> Result<(), NoMemory>
        requires index { index < length self.old }
        requires key { IsTrue (is_key key.now) }
        requires value { IsTrue (is_value value.now) }
        ensures ok { OnOk result (IfSome (name_at self.old index) (λ block. self.new
            ≡ set self.old block key.now value.now)) }
        ensures name { name_at self.new index ≡ name_at self.old index }
        ensures err { OnErr result (self.new ≡ self.old) }
    {
        let keys = self.blocks.get_index_mut(index).unwrap();
        keys.set(key, value)
    }

    fn index_of(&self, block: &str) -> Option<usize>
        ensures found { IfSome result (λ i. name_at self.now i ≡ Some block.now) }
        ensures absent { IfNone result (lookup (bytes_eq block.now) self.now ≡ None) }
    {
        let (index, _, _) = self.blocks.get_full(block)?;
        Some(index)
    }

    fn add_with(&mut self, block: &str, key: &str, value: &str) -> Result<(), NoMemory>
        requires block { IsTrue (is_block_name block.now) }
        requires absent { lookup (bytes_eq block.now) self.old ≡ None }
        requires key { IsTrue (is_key key.now) }
        requires value { IsTrue (is_value value.now) }
        ensures ok { OnOk result (self.new ≡ set self.old block.now key.now value.now) }
        ensures err { OnErr result (self.new ≡ self.old) }
    {
        let mut keys = Keys::new(*self.blocks.allocator());
        keys.set(key, value)?;
        self.insert(block, keys)
    }

    fn insert(&mut self, name: &str, keys: Keys) -> Result<(), NoMemory>
        requires name { IsTrue (is_block_name name.now) }
        requires keys { AreKeys keys }
        ensures ok { OnOk result (self.new ≡ insert_entry bytes_eq self.old name.now keys) }
        ensures err { OnErr result (self.new ≡ self.old) }
    {
        let alloc = *self.blocks.allocator();
        let name = String::from_str(alloc, name)?;
        self.blocks.insert(name, keys)?;
        Ok(())
    }
}
