ghost use Rattle.std.specs.Prelude.{◌≡◌, ◌<◌, ◌↔◌, [], ◌∷◌, ◌++◌, IsTrue, OnOk, OnErr, OnSome, length, slice_get};
ghost use Rattle.std.specs.Option.{option_copied};

use crate::label::NoMemory;
use std::alloc::Global;
use std::marker::Model;

/// A field on a block. Places are ordered by block, then field.
#[derive(Clone, Copy, Debug, PartialEq, Eq, PartialOrd, Ord)]
pub struct Place {
    pub block: u32,
    pub field: u32,
}

/// The fields that tasks of a kind take.
#[derive(Clone, Copy, Debug, PartialEq, Eq)]
pub enum PackKind {
    /// All fields.
    All,
    /// Those whose ghost zones are filled.
    Ghost,
    /// Those that pass through faces.
    Flux,
}

/// Places in order.
#[derive(Debug, Drop)]
pub struct Places {
    places: Vec<Place>,
}

impl Model for Places {
    ghost use Rattle.std.specs.Prelude.{List};
    ghost use Rattle.sparse_pool.specs.declared.place.Place.{Place};

    ghost Value = { List Place };

    ghost view = { λ list. list.places.items };
}

impl Places {
    /// A list with no place.
    pub fn new(alloc: Global) -> Places
        ensures { result ≡ [] }
    {
        Places {
            places: Vec::new(alloc),
        }
    }

    /// The list of these places, which are moved in.
    pub fn from_vec(places: Vec<Place>) -> Places
        ensures { result ≡ places.items }
    {
        Places { places }
    }

    /// The places in order.
    pub fn as_slice(&self) -> &[Place]
        ensures { result.now ≡ self.now }
    {
        self.places.as_slice()
    }

    /// How many places there are.
    pub fn len(&self) -> usize
        ensures { result ≡ length self.now }
    {
        self.places.len()
    }

    /// Whether there are none.
    pub fn is_empty(&self) -> bool
        ensures { IsTrue result ↔ (self.now ≡ []) }
    {
        self.places.is_empty()
    }

    /// The place under a number, or None past the end.
    pub fn get(&self, i: usize) -> Option<&Place>
        ensures value { option_copied result ≡ slice_get self.now i }
        ensures within { OnSome result (i < length self.now) }
    {
        self.places.get(i)
    }

    /// Adds a place at the end. After a refusal the list is as before.
    pub fn push(&mut self, place: Place) -> Result<(), NoMemory>
        ensures pushed { OnOk result (self.new ≡ self.old ++ place ∷ []) }
        ensures refused { OnErr result (self.new ≡ self.old) }
    {
        self.places.push(place)?;
        Ok(())
    }
}
