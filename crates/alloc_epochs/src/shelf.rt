ghost use Rattle.std.specs.Prelude.{◌≡◌, ◌+◌, ◌-◌, ◌<◌, ◌≤◌, ◌^◌, Some, None, IsOk, IsSome, IfOk, IfNone, IfSome, OnOk, OnErr, OnSome, length};
ghost use Rattle.alloc_epochs.specs.Rows.{empty_rows};
ghost use Rattle.alloc_epochs.specs.Shelf.{IsNext, IsNoneFrom, IsOn, key_at, listed, no_keys, takes, with_key};

use crate::finding::{KeyedField, next_in_row};
use crate::listing::list_row;
use crate::page::{PAGE_SIZE, Pool};
use crate::row::Row;
use mesh_num::NoMemory;
use package_fields::Registry;
use sparse_pool::{PackKind, Place, Places};
use std::alloc::Global;
use std::marker::Model;

/// Which places of some blocks are allocated, each with the key under which its buffer is kept, and
/// how often one of them came or went.
///
/// A block takes memory for a page of 32 fields only where one of these is allocated. Pages that
/// were given back are kept for the next places; contracts see how many of them there are at least
/// as `spare`.
#[derive(Debug, Drop)]
pub struct Shelf {
    first: u32,
    fields: u32,
    rows: Vec<Row>,
    pool: Pool,
    epoch: u64,
}

impl Model for Shelf {
    ghost use Rattle.std.specs.Prelude.{map};
    ghost use Rattle.alloc_epochs.specs.Pages.{keys_in};
    ghost use Rattle.alloc_epochs.specs.Shelf.{Shelved};
    ghost use Rattle.alloc_epochs.specs.Rows.{AreRows};

    ghost Value = { Shelved };

    ghost view = { λ s. record {
      first = s.first;
      fields = s.fields;
      keys = map
          (keys_in s.fields) s.rows.items;
      epoch = s.epoch;
      spare = s.pool;
    } };

    ghost invariant = { λ s. AreRows s.first s.fields s.rows.items };
}

impl Shelf {
    /// A shelf of so many blocks, of which the first has the number `first`, and so many fields, with
    /// nothing allocated and the epoch 0.
    pub fn new(alloc: Global, first: u32, blocks: u32, fields: u32) -> Result<Shelf, NoMemory>
        requires blocks { first + blocks ≤ 65536 }
        requires fields { fields ≤ 256 }
        ensures { IfOk result (λ s. s ≡ record {
          first = first;
          fields = fields;
          keys = no_keys blocks fields;
          epoch =
              0;
          spare = 0;
        }) }
    {
        let pages = (fields as usize).div_ceil(PAGE_SIZE);
        let rows = make_rows(alloc, blocks as usize, pages)?;
        Ok(Shelf {
            first,
            fields,
            rows,
            pool: Pool::new(alloc),
            epoch: 0,
        })
    }

    /// The key of a place, or None where it is not allocated.
    pub fn key(&self, at: Place) -> Option<usize>
        ensures { result ≡ key_at self.now at }
    {
        if at.block < self.first || at.field >= self.fields {
            return None;
        }
        let row = (at.block - self.first) as usize;
        if row < self.rows.len() {
            self.rows[row].get(at.field as usize)
        } else {
            None
        }
    }

    /// The first field from one on that is allocated on a block, with its key, or None where there is none.
    ///
    /// A step for each field of a page of 32 that has a key, and one for each other page.
    pub fn next_field(&self, block: u32, from: u32) -> Option<KeyedField>
        requires from_first { self.now.first ≤ block }
        requires block { block < self.now.first + length self.now.keys }
        ensures found { IfSome result (IsNext self.now block from) }
        ensures none { IfNone result (IsNoneFrom self.now block from) }
    {
        let row = (block - self.first) as usize;
        next_in_row(&self.rows[row], from, self.fields)
    }

    /// How often a place came or went since the last restart.
    pub fn epoch(&self) -> u64
        ensures { result ≡ self.now.epoch }
    {
        self.epoch
    }

    /// Counts from 0 again.
    pub fn restart_epoch(&mut self)
        ensures { self.new ≡ record self.old { epoch = 0 } }
    {
        self.epoch = 0;
    }

    /// Makes room for so many more places, so that as many calls of `allocate` need no memory.
    pub fn reserve(&mut self, more: usize) -> Result<(), NoMemory>
        ensures rest { self.new ≡ record self.old { spare = self.new.spare } }
        ensures room { OnOk result (more ≤ self.new.spare) }
        ensures grown { self.old.spare ≤ self.new.spare }
    {
        self.pool.fill(more)?;
        Ok(())
    }

    /// Allocates a place, under this key.
    pub fn allocate(&mut self, at: Place, key: usize) -> Result<(), NoMemory>
        requires on { IsOn self.old at }
        requires absent { key_at self.old at ≡ None }
        requires epoch { self.old.epoch < 2 ^ 64 - 1 }
        ensures allocated { OnOk result (self.new
            ≡ record self.old {
              keys = with_key self.old at (Some key);
              epoch = self.old.epoch
                  + 1;
              spare = self.new.spare;
            }) }
        ensures refused { OnErr result (self.new ≡ record self.old { spare = self.new.spare }) }
        ensures succeeds { 1 ≤ self.old.spare → IsOk result }
        ensures spare { self.old.spare ≤ self.new.spare + 1 }
    {
        self.pool.fill(1)?;
        let row = (at.block - self.first) as usize;
        let row = &mut self.rows[row];
        row.set(at.field as usize, key, &mut self.pool);
        self.epoch += 1;
        Ok(())
    }

    /// Frees a place and answers its key. Where it is not allocated the answer is None, and nothing
    /// changes.
    pub fn release(&mut self, at: Place) -> Option<usize>
        requires { IsSome (key_at self.old at) → self.old.epoch < 2 ^ 64 - 1 }
        ensures key { result ≡ key_at self.old at }
        ensures released { OnSome result (self.new
            ≡ record self.old {
              keys = with_key self.old at None;
              epoch = self.old.epoch
                  + 1;
              spare = self.new.spare;
            }) }
        ensures absent { IfNone result (self.new ≡ self.old) }
        ensures spare { self.old.spare ≤ self.new.spare }
    {
        let key = self.key(at)?;
        let row = (at.block - self.first) as usize;
        let row = &mut self.rows[row];
        row.clear(at.field as usize, &mut self.pool);
        self.epoch += 1;
        Some(key)
    }

    /// The allocated places whose fields tasks of a kind take, by block, then field.
    pub fn listed(&self, kind: PackKind, fields: &Registry) -> Result<Places, NoMemory>
        requires { length fields.now.fields ≡ self.now.fields }
        ensures { IfOk result (λ places. places ≡ listed self.now (takes fields.now.fields kind)) }
    {
        let mut places = Vec::new(*self.rows.allocator());
        for i in 0..self.rows.len() {
            let block = self.first + i as u32;
            list_row(&self.rows[i], block, kind, fields, &mut places)?;
        }
        Ok(Places::from_vec(places))
    }
}

/// So many rows of so many pages with no key.
fn make_rows(alloc: Global, rows: usize, pages: usize) -> Result<Vec<Row>, NoMemory>
    ensures { IfOk result (λ made. made.items ≡ empty_rows rows pages) }
{
    let mut made = Vec::with_capacity(alloc, rows)?;
    for _ in 0..rows {
        made.push(Row::new(alloc, pages)?)?;
    }
    Ok(made)
}
