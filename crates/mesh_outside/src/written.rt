ghost use Rattle.std.specs.Prelude.{◌≡◌, [], ◌<◌, ◌==◌, length, slice_get, Err, OnOk, OnErr};
ghost use Rattle.std.specs.Option.{option_copied};
ghost use Rattle.mesh_outside.specs.Gained.{begun, appended, finished};

use crate::{Bytes, Gained, Name, OutFault};
use std::alloc::Global;
use std::marker::Model;

/// The files that a depot gained, in the order in which they were begun.
#[derive(Debug, Drop)]
pub struct Written {
    files: Vec<Gained>,
}

impl Model for Written {
    ghost use Rattle.std.specs.Prelude.{List};
    ghost use Rattle.mesh_outside.specs.declared.files.Gained.{Gained};

    ghost Value = { List Gained };

    ghost view = { λ w. w.files.items };
}

impl Written {
    /// No file.
    pub fn new(alloc: Global) -> Written
        ensures { result ≡ [] }
    {
        Written {
            files: Vec::new(alloc),
        }
    }

    /// How many files were gained.
    pub fn len(&self) -> usize
        ensures { result ≡ length self.now }
    {
        self.files.len()
    }

    /// Whether no file was gained.
    pub fn is_empty(&self) -> bool
        ensures { result ≡ (length self.now == 0) }
    {
        self.files.is_empty()
    }

    /// The file at a place, in the order of gaining; None past the end.
    pub fn get(&self, at: usize) -> Option<&Gained>
        ensures { option_copied result ≡ slice_get self.now at }
    {
        self.files.get(at)
    }

    /// Adds an empty unfinished file.
    pub(crate) fn begin(&mut self, name: &str) -> Result<(), OutFault>
        ensures ok { OnOk result (self.new ≡ begun name.now self.old) }
        ensures err { OnErr result (self.new ≡ self.old) }
        ensures memory { result ≡ Err OutFault.Failed → ⊥ }
    {
        let alloc = *self.files.allocator();
        let file = Gained {
            name: Name::of(String::from_str(alloc, name)?),
            bytes: Bytes::of(Vec::new(alloc)),
            whole: false,
        };
        self.files.push(file)?;
        Ok(())
    }

    /// Adds bytes to the last file.
    pub(crate) fn append(&mut self, bytes: &[u8]) -> Result<(), OutFault>
        requires { 0 < length self.old }
        ensures ok { OnOk result (self.new ≡ appended bytes.now self.old) }
        ensures err { OnErr result (self.new ≡ self.old) }
        ensures memory { result ≡ Err OutFault.Failed → ⊥ }
    {
        let last = self.files.len() - 1;
        self.files[last].bytes.extend(bytes)?;
        Ok(())
    }

    /// Marks the last file as finished.
    pub(crate) fn finish(&mut self)
        requires { 0 < length self.old }
        ensures { self.new ≡ finished self.old }
    {
        let last = self.files.len() - 1;
        self.files[last].whole = true;
    }
}
