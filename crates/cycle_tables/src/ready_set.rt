//! The set of lists whose next task may be taken.

ghost use Rattle.std.specs.Prelude.{◌≡◌, ◌<◌, false, true, IfNone, IfOk, IfSome, length, replicate, slice_index_or, slice_set, ℕ};

use mesh_num::NoMemory;
use std::alloc::Global;
use std::marker::Model;

/// A set of numbers below a bound. Contracts see whether each is in it.
#[derive(Drop)]
pub struct ReadySet {
    /// Where each number of the set stands in the stack.
    places: Vec<Option<usize>>,
    stack: Vec<usize>,
}

impl Model for ReadySet {
    ghost use Rattle.std.specs.Prelude.{Bool, List, is_some, length, map, vec_capacity, ◌≤◌};
    ghost use Rattle.cycle_tables.specs.Inside.{IsReadySet};

    ghost Value = { List Bool };

    ghost view = { λ s. map is_some s.places.items };

    ghost invariant = { λ s. IsReadySet s.places.items s.stack.items (vec_capacity s.stack) };
}

impl ReadySet {
    /// The empty set of numbers below a bound.
    pub fn new(alloc: Global, bound: usize) -> Result<ReadySet, NoMemory>
        ensures { IfOk result (λ set. set ≡ replicate bound false) }
    {
        let mut places = Vec::with_capacity(alloc, bound)?;
        for _ in 0..bound {
            places.push_reserved(None);
        }
        let stack = Vec::with_capacity(alloc, bound)?;
        Ok(ReadySet { places, stack })
    }

    /// A number of the set, or None where it is empty.
    pub fn first(&self) -> Option<usize>
        ensures some { IfSome result (λ i. slice_index_or self.now i false ≡ true) }
        ensures none { IfNone result ((i : ℕ) → slice_index_or self.now i false ≡ false) }
    {
        let n = self.stack.len();
        if n == 0 {
            None
        } else {
            Some(self.stack[n - 1])
        }
    }

    /// Whether a number is in it.
    pub fn contains(&self, number: usize) -> bool
        requires { number < length self.now }
        ensures { result ≡ slice_index_or self.now number false }
    {
        self.places[number].is_some()
    }

    /// Puts a number in, or takes it out.
    pub fn set(&mut self, number: usize, is_in: bool)
        requires { number < length self.old }
        ensures { self.new ≡ slice_set self.old number is_in }
    {
        if is_in {
            self.insert(number);
        } else {
            self.remove(number);
        }
    }

    /// Puts a number in.
    fn insert(&mut self, number: usize)
        requires { number < length self.old }
        ensures { self.new ≡ slice_set self.old number true }
    {
        if self.places[number].is_none() {
            let place = self.stack.len();
            self.stack.push_reserved(number);
            self.places[number] = Some(place);
        }
    }

    /// Takes a number out: the last one of the stack comes to its place.
    fn remove(&mut self, number: usize)
        requires { number < length self.old }
        ensures { self.new ≡ slice_set self.old number false }
    {
        if let Some(place) = self.places[number] {
            let last = self.stack.len() - 1;
            let moved = self.stack[last];
            self.stack[place] = moved;
            self.places[moved] = Some(place);
            self.places[number] = None;
            self.stack.truncate(last);
        }
    }
}
