//! What is kept at each place.

ghost use Rattle.std.specs.Prelude.{◌≡◌, ◌+◌, ◌-◌, ◌/◌, ◌<◌, ◌≤◌, ◌^◌, ℕ, None, Some, IfNone, IfOk, IfSome, IsSome, OnOk, is_some, length, option_copied, replicate, slice_index};
ghost use Rattle.std.specs.Option.{option_map};
ghost use Rattle.alloc_epochs.specs.Shelf.{place_on, takes};
ghost use Rattle.field_bufs.specs.declared.buf.FieldBuf.{FieldBuf};
ghost use Rattle.cell_block.specs.State.{buffer_in, buffer_set, count_in, entry_in, idle_set, stamps_raised};
ghost use Rattle.cell_block.specs.Partitions.{lists_of};
ghost use Rattle.cell_block.specs.Store.{IsNextKept, IsNoneKept, IsPlaced, entry_of, listed_in, nothing_placed, with_come};

use crate::kept::{Kept, lend, put, set_idle};
use crate::shelves::Shelves;
use crate::stamping::stamp_block;
use field_bufs::FieldBuf;
use mesh_num::NoMemory;
use package_fields::Registry;
use slab::Slab;
use sparse_pool::{PackKind, Place, Places};
use std::alloc::Global;
use std::marker::Model;

/// The shelves of all partitions, and under their keys what is kept at each allocated place.
#[derive(Drop)]
pub struct Store {
    shelves: Shelves,
    buffers: Slab<Kept>,
    counts: Vec<u64>,
}

impl Model for Store {
    ghost use Rattle.cell_block.specs.Store.{AreKept, Placed, placed};

    ghost Value = { Placed };

    ghost view = { λ s. placed s.shelves s.buffers };

    ghost invariant = { λ s. AreKept s.shelves s.buffers s.counts.items };
}

impl Store {
    /// A store of so many leaves, in partitions of a size, and fields, that keeps nothing.
    pub fn new(alloc: Global, size: u32, leaves: u32, fields: u32) -> Result<Store, NoMemory>
        requires some { 1 ≤ size }
        requires most { size ≤ 65536 }
        requires few_leaves { leaves ≤ 65536 }
        requires few_fields { fields ≤ 256 }
        ensures { IfOk result (λ s. s ≡ nothing_placed size leaves fields) }
    {
        let shelves = Shelves::new(alloc, size, leaves, fields)?;
        let counts = vec![in alloc; 0u64; fields as usize]?;
        Ok(Store {
            shelves,
            buffers: Slab::new(alloc),
            counts,
        })
    }

    /// How many partitions there are.
    pub fn lists(&self) -> u32
        ensures value { result ≡ lists_of self.now.size self.now.leaves }
        ensures kept { IsPlaced self.now }
    {
        self.shelves.count()
    }

    /// How many fields there are.
    pub fn fields(&self) -> u32
        ensures { result ≡ self.now.fields }
    {
        self.shelves.fields()
    }

    /// The partition of a leaf.
    pub fn list_of(&self, leaf: u32) -> u32
        requires { leaf < self.now.leaves }
        ensures value { result ≡ leaf / self.now.size }
        ensures within { result < lists_of self.now.size self.now.leaves }
    {
        self.shelves.list_of(leaf)
    }

    /// What is kept at a place, or None where the field is not allocated there.
    pub fn get(&self, at: Place) -> Option<&Kept>
        ensures { option_map entry_of (option_copied result) ≡ entry_in self.now.places at }
    {
        match self.shelves.key(at) {
            Some(key) => self.buffers.get(key),
            None => None,
        }
    }

    /// The first field from one on that is allocated on a block.
    pub fn next_field(&self, block: u32, from: u32) -> Option<u32>
        requires { block < self.now.leaves }
        ensures found { IfSome result (IsNextKept self.now block from) }
        ensures none { IfNone result (IsNoneKept self.now block from) }
    {
        match self.shelves.next_field(block, from) {
            Some(next) => Some(next.field),
            None => None,
        }
    }

    /// On how many blocks a field is allocated.
    pub fn blocks_with(&self, field: u32) -> u64
        requires { field < self.now.fields }
        ensures { result ≡ count_in self.now.places field }
    {
        self.counts[field as usize]
    }

    /// Puts a buffer at a place, in whose partition there is room for one more.
    pub fn add(&mut self, at: Place, buf: FieldBuf)
        requires block { at.block < self.old.leaves }
        requires field { at.field < self.old.fields }
        requires absent { entry_in self.old.places at ≡ None }
        requires room { 1 ≤ slice_index self.old.spares (at.block / self.old.size) }
        requires epoch { slice_index self.old.epochs (at.block / self.old.size) < 2 ^ 64 - 1 }
        ensures added { self.new ≡ record (with_come self.old at
            (Some (record { idle = 0; buf = Some buf }))) { spares = self.new.spares } }
        ensures spares { (list : ℕ) → slice_index self.old.spares list ≤ slice_index self.new.spares list + 1 }
    {
        let _ = self.shelves.count();
        let kept = Kept {
            at,
            idle: 0,
            buf: Some(buf),
        };
        let key = self.buffers.insert_reserved(kept);
        self.shelves.allocate(at, key);
        self.counts[at.field as usize] += 1;
    }

    /// Frees a place and answers its buffer.
    pub fn release(&mut self, at: Place) -> FieldBuf
        requires home { IsSome (buffer_in self.old.places at) }
        requires epoch { slice_index self.old.epochs (at.block / self.old.size) < 2 ^ 64 - 1 }
        ensures buffer { buffer_in self.old.places at ≡ Some result }
        ensures freed { self.new ≡ record (with_come self.old at None) { spares = self.new.spares } }
        ensures spares { (list : ℕ) → slice_index self.old.spares list ≤ slice_index self.new.spares list }
    {
        let _ = self.shelves.count();
        let key = self.shelves.release(at);
        self.counts[at.field as usize] -= 1;
        let kept = self.buffers.remove(key);
        kept.buf.unwrap()
    }

    /// Lends the buffer of a place.
    pub fn lend(&mut self, at: Place) -> FieldBuf
        requires { IsSome (buffer_in self.old.places at) }
        ensures buffer { buffer_in self.old.places at ≡ Some result }
        ensures lent { self.new ≡ record self.old { places = buffer_set self.old.places at None } }
    {
        let _ = self.shelves.count();
        let key = self.shelves.key(at).unwrap();
        lend(&mut self.buffers, key)
    }

    /// Puts the buffer of an allocated place back.
    pub fn put_back(&mut self, at: Place, buf: FieldBuf)
        requires { IsSome (entry_in self.old.places at) }
        ensures { self.new ≡ record self.old { places = buffer_set self.old.places at (Some buf) } }
    {
        let _ = self.shelves.count();
        let key = self.shelves.key(at).unwrap();
        put(&mut self.buffers, key, buf);
    }

    /// Sets the idle count of an allocated place.
    pub fn set_idle(&mut self, at: Place, idle: u32)
        requires { IsSome (entry_in self.old.places at) }
        ensures { self.new ≡ record self.old { places = idle_set self.old.places at idle } }
    {
        let _ = self.shelves.count();
        let key = self.shelves.key(at).unwrap();
        set_idle(&mut self.buffers, key, idle);
    }

    /// Raises by one the stamp of each buffer of a block that is not lent.
    pub fn stamp(&mut self, block: u32)
        requires within { block < self.old.leaves }
        requires stamps { (f : ℕ) (buf : FieldBuf) → buffer_in self.old.places (place_on block f) ≡ Some buf
            → buf.stamp < 2 ^ 32 - 1 }
        ensures { self.new ≡ record self.old { places = stamps_raised self.old.places block } }
    {
        let _ = self.shelves.count();
        stamp_block(&self.shelves, &mut self.buffers, block);
    }

    /// Makes room for so many more places of a partition.
    pub fn reserve(&mut self, list: u32, more: usize) -> Result<(), NoMemory>
        requires { list < lists_of self.old.size self.old.leaves }
        ensures rest { self.new ≡ record self.old { spares = self.new.spares } }
        ensures room { OnOk result (more ≤ slice_index self.new.spares list) }
        ensures grown { (other : ℕ) → slice_index self.old.spares other ≤ slice_index self.new.spares other }
    {
        self.buffers.reserve(more)?;
        self.shelves.reserve(list, more)
    }

    /// The allocated places of a partition whose fields tasks of a kind take, by block, then field.
    pub fn listed(&self, list: u32, kind: PackKind, fields: &Registry) -> Result<Places, NoMemory>
        requires within { list < lists_of self.now.size self.now.leaves }
        requires fields { length fields.now.fields ≡ self.now.fields }
        ensures { IfOk result (λ places. places ≡ listed_in self.now list (takes fields.now.fields kind)) }
    {
        self.shelves.listed(list, kind, fields)
    }

    /// How often a place of a partition came or went since the last restart.
    pub fn epoch(&self, list: u32) -> u64
        requires { list < lists_of self.now.size self.now.leaves }
        ensures { result ≡ slice_index self.now.epochs list }
    {
        self.shelves.epoch(list)
    }

    /// Counts from 0 again in all partitions.
    pub fn restart_epochs(&mut self)
        ensures { self.new ≡ record self.old { epochs = replicate (lists_of self.old.size self.old.leaves) 0 } }
    {
        self.shelves.restart_epochs();
    }
}
