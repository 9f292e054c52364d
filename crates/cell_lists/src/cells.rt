//! Numbers in order.

ghost use Rattle.std.specs.Prelude.{◌≡◌, ◌<◌, ◌↔◌, [], ◌∷◌, ◌++◌, IfOk, IsTrue, OnOk, OnErr, OnSome, length, replicate, slice_get};
ghost use Rattle.std.specs.Option.{option_copied};

use mesh_num::NoMemory;
use std::alloc::Global;
use std::marker::Model;

/// A list of totals. Contracts see the numbers in order.
#[derive(Debug, Drop)]
pub struct Cells {
    cells: Vec<u64>,
}

impl Model for Cells {
    ghost use Rattle.std.specs.Prelude.{List, ℕ};

    ghost Value = { List ℕ };

    ghost view = { λ list. list.cells.items };
}

impl Cells {
    ghost use Rattle.std.specs.Borrow.{sem};
    ghost use Rattle.cell_lists.specs.Lending.{LendsCells};

    /// A list with no number.
    pub fn new(alloc: Global) -> Cells
        ensures { result ≡ [] }
    {
        Cells {
            cells: Vec::new(alloc),
        }
    }

    /// The list of these numbers, which are moved in.
    pub fn of(cells: Vec<u64>) -> Cells
        ensures { result ≡ cells.items }
    {
        Cells { cells }
    }

    /// A list of so many zeros.
    pub fn zeros(alloc: Global, n: usize) -> Result<Cells, NoMemory>
        ensures { IfOk result (λ list. list ≡ replicate n 0) }
    {
        let cells = vec![in alloc; 0u64; n]?;
        Ok(Cells { cells })
    }

    /// A list of the numbers of a slice.
    pub fn from_slice(alloc: Global, cells: &[u64]) -> Result<Cells, NoMemory>
        ensures { IfOk result (λ list. list ≡ cells.now) }
    {
        let cells = Vec::from_slice(alloc, cells)?;
        Ok(Cells { cells })
    }

    /// The numbers, moved out.
    pub fn into_vec(self) -> Vec<u64>
        ensures { result.items ≡ self }
    {
        let Cells { cells } = self;
        cells
    }

    /// The numbers in order.
    pub fn as_slice(&self) -> &[u64]
        ensures { result.now ≡ self.now }
    {
        self.cells.as_slice()
    }

    /// The numbers in order, for writing.
    pub fn as_mut_slice(&mut self) -> &mut [u64]
        ensures* writes_back { sem 𝓛 (LendsCells self.entry result) }
        ensures value { result.now ≡ self.old }
    {
        self.cells.as_mut_slice()
    }

    /// How many numbers there are.
    pub fn len(&self) -> usize
        ensures { result ≡ length self.now }
    {
        self.cells.len()
    }

    /// Whether there are none.
    pub fn is_empty(&self) -> bool
        ensures { IsTrue result ↔ (self.now ≡ []) }
    {
        self.cells.is_empty()
    }

    /// The number at a place, or None past the end.
    pub fn get(&self, at: usize) -> Option<&u64>
        ensures value { option_copied result ≡ slice_get self.now at }
        ensures within { OnSome result (at < length self.now) }
    {
        self.cells.get(at)
    }

    /// Adds a number at the end. After a refusal the list is as before.
    pub fn push(&mut self, cell: u64) -> Result<(), NoMemory>
        ensures pushed { OnOk result (self.new ≡ self.old ++ cell ∷ []) }
        ensures refused { OnErr result (self.new ≡ self.old) }
    {
        self.cells.push(cell)?;
        Ok(())
    }
}
