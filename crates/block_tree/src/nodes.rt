//! Sets of locations.

ghost use Rattle.std.specs.Prelude.{◌≡◌, ◌<◌, ◌^◌, [], IfOk, length, slice_get};
ghost use Rattle.std.specs.List.{IsDistinct};
ghost use Rattle.morton_order.specs.Space.{same_loc};
ghost use Rattle.block_tree.specs.Tree.{is_listed};
ghost use Rattle.block_tree.specs.Nodes.{number_in, with_node, with_nodes};

use indexmap::IndexSet;
use morton_order::Loc;
use std::alloc::{AllocError, Global};
use std::marker::Model;

/// A set of locations in the order in which they were found; to look one up takes one step.
#[derive(Drop)]
pub(crate) struct Nodes {
    places: IndexSet<Loc>,
}

impl Model for Nodes {
    ghost use Rattle.std.specs.Prelude.{List};
    ghost use Rattle.morton_order.specs.declared.space.Loc.{Loc};

    ghost Value = { List Loc };

    ghost view = { λ a. a.places.keys };
}

impl Nodes {
    /// A set with room for some locations.
    pub(crate) fn with_capacity(alloc: Global, room: usize) -> Result<Nodes, AllocError>
        ensures { IfOk result (λ nodes. nodes ≡ []) }
    {
        let places = IndexSet::with_capacity(alloc, room)?;
        Ok(Nodes { places })
    }

    /// A set of some locations.
    pub(crate) fn from_slice(alloc: Global, places: &[Loc]) -> Result<Nodes, AllocError>
        ensures { IfOk result (λ nodes. nodes ≡ with_nodes [] places.now) }
    {
        let mut nodes = Nodes::with_capacity(alloc, places.len())?;
        nodes.insert_all(places)?;
        Ok(nodes)
    }

    /// The same set once more.
    pub(crate) fn copy(&self, alloc: Global) -> Result<Nodes, AllocError>
        ensures { IfOk result (λ nodes. nodes ≡ self.now) }
    {
        if self.len() == 0 {
            return Nodes::with_capacity(alloc, 0);
        }
        Nodes::from_slice(alloc, self.places.as_slice())
    }

    /// Puts some locations into the set, one after another.
    pub(crate) fn insert_all(&mut self, places: &[Loc]) -> Result<(), AllocError>
        ensures { IfOk result (λ _. self.new ≡ with_nodes self.old places.now) }
    {
        for i in 0..places.len() {
            self.insert(places[i])?;
        }
        Ok(())
    }

    /// How many locations the set has.
    pub(crate) fn len(&self) -> usize
        ensures count { result ≡ length self.now }
        ensures small { result < 2 ^ 63 }
        ensures distinct { IsDistinct same_loc self.now }
    {
        self.places.len()
    }

    /// The location with a number, none exactly past the last one.
    pub(crate) fn get(&self, i: usize) -> Option<Loc>
        ensures { result ≡ slice_get self.now i }
    {
        self.places.get_index(i).copied()
    }

    /// The locations in the order in which they were found.
    pub(crate) fn as_slice(&self) -> &[Loc]
        ensures { result.now ≡ self.now }
    {
        self.places.as_slice()
    }

    /// Whether a location is in the set.
    pub(crate) fn contains(&self, at: &Loc) -> bool
        ensures { result ≡ is_listed self.now at.now }
    {
        self.places.contains(at)
    }

    /// The number of a location, counted in the order in which they were found, none where it is not in the set.
    pub(crate) fn number(&self, at: &Loc) -> Option<usize>
        ensures { result ≡ number_in self.now at.now }
    {
        self.places.get_index_of(at)
    }

    /// Puts a location into the set, last where it is new.
    pub(crate) fn insert(&mut self, at: Loc) -> Result<(), AllocError>
        ensures ok { IfOk result (λ _. self.new ≡ with_node self.old at) }
    {
        self.places.insert(at)?;
        Ok(())
    }
}
