//! A piece of a text in two parts.

ghost use Rattle.std.specs.Prelude.{◌≡◌, ◌++◌, [], OnErr, OnOk};
ghost use Rattle.dump_writer.specs.Pieces.{text_of};

use mesh_num::NoMemory;
use std::alloc::Global;

/// A piece of a text in two parts, of which the second may be written first.
#[derive(Drop)]
pub(crate) struct Piece {
    /// What comes first.
    pub(crate) first: Vec<u8>,
    /// What follows it.
    pub(crate) rest: Vec<u8>,
}

impl Piece {
    /// An empty piece.
    pub(crate) fn new(alloc: Global) -> Piece
        ensures { text_of result ≡ [] }
    {
        Piece {
            first: Vec::new(alloc),
            rest: Vec::new(alloc),
        }
    }

    /// Empties both parts; their memory stays for the next piece.
    pub(crate) fn clear(&mut self)
        ensures first { self.new.first.items ≡ [] }
        ensures rest { self.new.rest.items ≡ [] }
    {
        self.first.clear();
        self.rest.clear();
    }

    /// Appends the piece to a text. After a refusal the text is as before.
    pub(crate) fn append_to(&self, into: &mut Vec<u8>) -> Result<(), NoMemory>
        ensures ok { OnOk result (into.new.items ≡ into.old.items ++ text_of self.now) }
        ensures err { OnErr result (into.new.items ≡ into.old.items) }
    {
        let before = into.len();
        into.extend_from_slice(self.first.as_slice())?;
        match into.extend_from_slice(self.rest.as_slice()) {
            Ok(()) => Ok(()),
            Err(_) => {
                into.truncate(before);
                Err(NoMemory)
            }
        }
    }
}
