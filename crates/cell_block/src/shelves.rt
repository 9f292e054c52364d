//! The shelves of all partitions.

ghost use Rattle.std.specs.Prelude.{◌≡◌, ◌+◌, ◌-◌, ◌/◌, ◌<◌, ◌≤◌, ◌^◌, ℕ, None, Some, IfNone, IfOk, IfSome, IsSome, OnOk, length, replicate, slice_index};
ghost use Rattle.alloc_epochs.specs.Shelf.{takes};
ghost use Rattle.cell_block.specs.Partitions.{IsNextOn, IsNoneOnFrom, IsOnShelves, IsPlace, key_on, keyed_in, lists_of, nothing_on, with_place_on};

use crate::shelf_lists::{allocate_on, make_shelves, release_from, restart_all};
use alloc_epochs::{KeyedField, Shelf};
use mesh_num::NoMemory;
use package_fields::Registry;
use sparse_pool::{PackKind, Place, Places};
use std::alloc::Global;
use std::marker::Model;

/// One shelf for each partition: leaves that follow one another, as many for each but the last.
#[derive(Drop)]
pub struct Shelves {
    size: u32,
    leaves: u32,
    fields: u32,
    shelves: Vec<Shelf>,
}

impl Model for Shelves {
    ghost use Rattle.cell_block.specs.Partitions.{AreShelves, OnShelves, on_shelves};

    ghost Value = { OnShelves };

    ghost view = { λ s. on_shelves s.size s.leaves s.fields s.shelves.items };

    ghost invariant = { λ s. AreShelves s.size s.leaves s.fields s.shelves.items };
}

impl Shelves {
    /// Shelves of so many leaves, in partitions of a size, and fields, on which nothing is allocated.
    pub fn new(alloc: Global, size: u32, leaves: u32, fields: u32) -> Result<Shelves, NoMemory>
        requires some { 1 ≤ size }
        requires most { size ≤ 65536 }
        requires few_leaves { leaves ≤ 65536 }
        requires few_fields { fields ≤ 256 }
        ensures { IfOk result (λ s. s ≡ nothing_on size leaves fields) }
    {
        let shelves = make_shelves(alloc, size, leaves, fields)?;
        Ok(Shelves {
            size,
            leaves,
            fields,
            shelves,
        })
    }

    /// How many partitions there are.
    pub fn count(&self) -> u32
        ensures value { result ≡ lists_of self.now.size self.now.leaves }
        ensures kept { IsOnShelves self.now }
    {
        self.shelves.len() as u32
    }

    /// How many fields there are.
    pub fn fields(&self) -> u32
        ensures { result ≡ self.now.fields }
    {
        self.fields
    }

    /// The partition of a leaf.
    pub fn list_of(&self, leaf: u32) -> u32
        requires { leaf < self.now.leaves }
        ensures value { result ≡ leaf / self.now.size }
        ensures within { result < lists_of self.now.size self.now.leaves }
    {
        leaf / self.size
    }

    /// The key of a place, or None where it is not allocated.
    pub fn key(&self, at: Place) -> Option<usize>
        ensures { result ≡ key_on self.now.keys at }
    {
        if at.block < self.leaves {
            let list = (at.block / self.size) as usize;
            self.shelves[list].key(at)
        } else {
            None
        }
    }

    /// The first field from one on that is allocated on a block, with its key.
    pub fn next_field(&self, block: u32, from: u32) -> Option<KeyedField>
        requires { block < self.now.leaves }
        ensures found { IfSome result (IsNextOn self.now block from) }
        ensures none { IfNone result (IsNoneOnFrom self.now block from) }
    {
        let list = (block / self.size) as usize;
        self.shelves[list].next_field(block, from)
    }

    /// Allocates a place of a partition that has room for one more.
    pub fn allocate(&mut self, at: Place, key: usize)
        requires within { IsPlace self.old at }
        requires absent { key_on self.old.keys at ≡ None }
        requires room { 1 ≤ slice_index self.old.spares (at.block / self.old.size) }
        requires epoch { slice_index self.old.epochs (at.block / self.old.size) < 2 ^ 64 - 1 }
        ensures allocated { self.new ≡ record (with_place_on self.old at (Some key)) { spares = self.new.spares } }
        ensures spares { (list : ℕ) → slice_index self.old.spares list ≤ slice_index self.new.spares list + 1 }
    {
        let list = (at.block / self.size) as usize;
        allocate_on(&mut self.shelves[list], at, key);
    }

    /// Frees an allocated place and answers its key.
    pub fn release(&mut self, at: Place) -> usize
        requires present { IsSome (key_on self.old.keys at) }
        requires epoch { slice_index self.old.epochs (at.block / self.old.size) < 2 ^ 64 - 1 }
        ensures key { key_on self.old.keys at ≡ Some result }
        ensures freed { self.new ≡ record (with_place_on self.old at None) { spares = self.new.spares } }
        ensures spares { (list : ℕ) → slice_index self.old.spares list ≤ slice_index self.new.spares list }
    {
        let list = (at.block / self.size) as usize;
        release_from(&mut self.shelves[list], at)
    }

    /// Makes room for so many more places of a partition.
    pub fn reserve(&mut self, list: u32, more: usize) -> Result<(), NoMemory>
        requires { list < lists_of self.old.size self.old.leaves }
        ensures rest { self.new ≡ record self.old { spares = self.new.spares } }
        ensures room { OnOk result (more ≤ slice_index self.new.spares list) }
        ensures grown { (other : ℕ) → slice_index self.old.spares other ≤ slice_index self.new.spares other }
    {
        self.shelves[list as usize].reserve(more)
    }

    /// The allocated places of a partition whose fields tasks of a kind take, by block, then field.
    pub fn listed(&self, list: u32, kind: PackKind, fields: &Registry) -> Result<Places, NoMemory>
        requires within { list < lists_of self.now.size self.now.leaves }
        requires fields { length fields.now.fields ≡ self.now.fields }
        ensures { IfOk result (λ places. places ≡ keyed_in self.now list (takes fields.now.fields kind)) }
    {
        self.shelves[list as usize].listed(kind, fields)
    }

    /// How often a place of a partition came or went since the last restart.
    pub fn epoch(&self, list: u32) -> u64
        requires { list < lists_of self.now.size self.now.leaves }
        ensures { result ≡ slice_index self.now.epochs list }
    {
        self.shelves[list as usize].epoch()
    }

    /// Counts from 0 again in all partitions.
    pub fn restart_epochs(&mut self)
        ensures { self.new ≡ record self.old { epochs = replicate (lists_of self.old.size self.old.leaves) 0 } }
    {
        restart_all(&mut self.shelves);
    }
}
