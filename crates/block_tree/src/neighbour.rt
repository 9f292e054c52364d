//! What is behind a side of a leaf, by the numbers of leaves.

ghost use Rattle.std.specs.Prelude.{◌≡◌, ◌≤◌, length, slice_get, take};

use crate::table::Quartet;
use std::marker::Model;

/// The numbers of the finer leaves behind a side: one, two or four of them, by rising child number, kept inline.
#[derive(Drop)]
pub struct FineLeaves {
    numbers: [u32; 4],
    count: usize,
}

impl Model for FineLeaves {
    ghost use Rattle.std.specs.Prelude.{List, ℕ, take, ◌≤◌};

    ghost Value = { List ℕ };

    ghost view = { λ f. take f.count f.numbers };

    ghost invariant = { λ f. f.count ≤ 4 };
}

impl FineLeaves {
    /// How many leaves there are.
    pub fn len(&self) -> usize
        ensures { result ≡ length self.now }
    {
        self.count
    }

    /// The number of the leaf at a place of the list, none exactly past its end.
    pub fn get(&self, i: usize) -> Option<u32>
        ensures { result ≡ slice_get self.now i }
    {
        if i < self.count {
            Some(self.numbers[i])
        } else {
            None
        }
    }

    /// The first `count` of four numbers.
    pub(crate) fn first(numbers: Quartet, count: usize) -> FineLeaves
        requires { count ≤ 4 }
        ensures { result ≡ take count numbers.numbers }
    {
        let [first, second, third, fourth] = numbers.numbers;
        FineLeaves {
            numbers: [
                u32::from(first),
                u32::from(second),
                u32::from(third),
                u32::from(fourth),
            ],
            count,
        }
    }
}

/// What is behind a side of a leaf. Leaves are given by their numbers.
#[derive(Drop)]
pub enum Behind {
    /// A face of the domain that does not wrap round.
    Outside,
    /// One leaf of the same level.
    Same(u32),
    /// One leaf of the next coarser level.
    Coarse(u32),
    /// Leaves of the next finer level.
    Fine(FineLeaves),
}
