ghost use Rattle.std.specs.Prelude.{◌≡◌, ◌++◌, [], IsTrue, OnOk, OnErr};
ghost use Rattle.std.specs.Option.{option_copied};
ghost use Rattle.std.specs.Str.{bytes_eq};
ghost use Rattle.std.specs.String.{string_bytes};
ghost use Rattle.std.specs.Map.{lookup};
ghost use Rattle.indexmap.specs.IndexMap.{insert_entry};
ghost use Rattle.input_file.specs.Texts.{is_key, is_value};
ghost use Rattle.input_file.specs.Printed.{setting_lines, text_of_lines};

use crate::fault::NoMemory;
use crate::map::TextMap;
use crate::print::print_setting;
use std::alloc::Global;
use std::hash::BuildHasherDefault;
use std::marker::Model;

/// The keys of one block with their values, in the order in which they came.
#[derive(Drop)]
pub struct Keys {
    map: TextMap<String>,
}

impl Model for Keys {
    ghost use Rattle.std.specs.Prelude.{List, map as list_map};
    ghost use Rattle.std.specs.String.{string_bytes};
    ghost use Rattle.input_file.specs.Texts.{Text};
    ghost use Rattle.input_file.specs.WellFormed.{AreKeys};

    ghost Value = { List (Text × Text) };

    ghost view = { λ k. list_map (λ e. (string_bytes e.0, string_bytes e.1)) k.map.entries };

    ghost invariant = { λ k. AreKeys (list_map (λ e. (string_bytes e.0, string_bytes e.1)) k.map.entries) };
}

impl Keys {
    /// A block with no key.
    pub fn new(alloc: Global) -> Keys
        ensures { result ≡ [] }
    {
        Keys {
            map: TextMap::with_hasher(alloc, BuildHasherDefault::new()),
        }
    }

    /// The value of a key.
    pub fn get(&self, key: &str) -> Option<&str>
        ensures { option_copied result ≡ lookup (bytes_eq key.now) self.now }
    {
        let value = self.map.get(key)?;
        Some(value.as_str())
    }

    /// Sets the value of a key: a key that is there keeps its place, a new one goes last.
    pub fn set(&mut self, key: &str, value: &str) -> Result<(), NoMemory>
        requires key { IsTrue (is_key key.now) }
        requires value { IsTrue (is_value value.now) }
        ensures ok { OnOk result (self.new ≡ insert_entry bytes_eq self.old key.now value.now) }
        ensures err { OnErr result (self.new ≡ self.old) }
    {
        let alloc = *self.map.allocator();
        let key = String::from_str(alloc, key)?;
        let value = String::from_str(alloc, value)?;
        self.map.insert(key, value)?;
        Ok(())
    }

    /// Appends the lines of the keys.
    pub fn print(&self, text: &mut String) -> Result<(), NoMemory>
        ensures { OnOk result (string_bytes text.new
            ≡ string_bytes text.old ++ text_of_lines (setting_lines self.now)) }
    {
        for i in 0..self.map.len() {
            let (key, value) = self.map.get_index(i).unwrap();
            print_setting(text, key.as_str(), value.as_str())?;
        }
        Ok(())
    }
}
