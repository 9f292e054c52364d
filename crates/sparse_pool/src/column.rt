ghost use Rattle.std.specs.Prelude.{◌≡◌, ◌<◌, IfOk, false, length, replicate, count_by, slice_index_or, slice_set};

use std::alloc::{AllocError, Global};
use std::marker::Model;

/// Which blocks hold one field, and how many do.
#[derive(Debug, Drop)]
pub struct Column {
    held: Vec<bool>,
    count: usize,
}

impl Model for Column {
    ghost use Rattle.std.specs.Prelude.{◌≡◌, List, Bool, count_by};

    ghost Value = { List Bool };

    ghost view = { λ column. column.held.items };

    ghost invariant = { λ column. column.count ≡ count_by (λ held. held) column.held.items };
}

impl Column {
    /// The column of a field that no block holds.
    pub fn new(alloc: Global, blocks: usize) -> Result<Column, AllocError>
        ensures { IfOk result (λ column. column ≡ replicate blocks false) }
    {
        let held = vec![in alloc; false; blocks]?;
        Ok(Column { held, count: 0 })
    }

    /// Whether a block holds the field.
    pub fn has(&self, block: usize) -> bool
        requires { block < length self.now }
        ensures { result ≡ slice_index_or self.now block false }
    {
        self.held[block]
    }

    /// How many blocks hold the field.
    pub fn count(&self) -> usize
        ensures { result ≡ count_by (λ held. held) self.now }
    {
        self.count
    }

    /// Says whether a block holds the field.
    pub fn set(&mut self, block: usize, held: bool)
        requires { block < length self.old }
        ensures { self.new ≡ slice_set self.old block held }
    {
        self.count -= usize::from(self.held[block]);
        self.held[block] = held;
        self.count += usize::from(held);
    }
}
