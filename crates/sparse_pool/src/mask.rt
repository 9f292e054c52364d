ghost use Rattle.std.specs.Prelude.{◌≡◌, ◌<◌, IfOk, true, false, length};
ghost use Rattle.sparse_pool.specs.Mask.{IsWithin, holds, nowhere, with_place, count_of};

use crate::column::Column;
use crate::label::NoMemory;
use crate::place::Place;
use std::alloc::Global;
use std::marker::Model;

/// Which blocks hold which fields. Contracts see for each field the list of its blocks.
#[derive(Debug, Drop)]
pub struct Mask {
    columns: Vec<Column>,
}

impl Model for Mask {
    ghost use Rattle.std.specs.Prelude.{List, Bool};

    ghost Value = { List (List Bool) };

    ghost view = { λ mask. mask.columns.items };
}

impl Mask {
    /// The mask of so many blocks and fields in which no place is held.
    pub fn new(alloc: Global, blocks: u32, fields: u32) -> Result<Mask, NoMemory>
        ensures { IfOk result (λ mask. mask ≡ nowhere blocks fields) }
    {
        let mut columns = Vec::with_capacity(alloc, fields as usize)?;
        for _ in 0..fields {
            columns.push(Column::new(alloc, blocks as usize)?)?;
        }
        Ok(Mask { columns })
    }

    /// Whether a place is held.
    pub fn has(&self, at: Place) -> bool
        requires { IsWithin self.now at }
        ensures { result ≡ holds self.now at }
    {
        self.columns[at.field as usize].has(at.block as usize)
    }

    /// Says that a place is held; the others are as before.
    pub fn insert(&mut self, at: Place)
        requires { IsWithin self.old at }
        ensures { self.new ≡ with_place self.old at true }
    {
        let column = &mut self.columns[at.field as usize];
        column.set(at.block as usize, true);
    }

    /// Says that a place is not held; the others are as before.
    pub fn remove(&mut self, at: Place)
        requires { IsWithin self.old at }
        ensures { self.new ≡ with_place self.old at false }
    {
        let column = &mut self.columns[at.field as usize];
        column.set(at.block as usize, false);
    }

    /// On how many blocks a field is held.
    pub fn count(&self, field: u32) -> u64
        requires { field < length self.now }
        ensures { result ≡ count_of self.now field }
    {
        self.columns[field as usize].count() as u64
    }
}
