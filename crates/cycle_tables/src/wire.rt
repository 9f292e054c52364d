//! The letters on the wire.

ghost use Rattle.std.specs.Prelude.{◌≡◌, ◌+◌, ◌<◌, ◌≤◌, [], ◌∷◌, ◌++◌, IsOk, IsSome, None, OnOk, Some, is_some, length, position, slice_set};
ghost use Rattle.cycle_tables.specs.Letters.{Sent};
ghost use Rattle.cycle_tables.specs.Tables.{IsLeast};
ghost use Rattle.cycle_tables.specs.Inside.{IsFirstFrom, posted};

use crate::letter::Letter;
use mesh_num::NoMemory;
use slab::Slab;
use std::alloc::Global;
use std::marker::Model;

/// The letters that were sent, by number, while they are on the wire.
#[derive(Drop)]
pub struct Wire<T> {
    letters: Slab<Letter<T>>,
    keys: Vec<Option<usize>>,
    first: usize,
}

impl<T> Model for Wire<T> {
    ghost use Rattle.std.specs.Prelude.{◌-◌, length, map, min, vec_capacity};
    ghost use Rattle.slab.specs.Slab.{slab_len};
    ghost use Rattle.cycle_tables.specs.Letters.{Sent, sent_code};
    ghost use Rattle.cycle_tables.specs.Inside.{IsWire, at_key};

    ghost Value = { Sent T };

    ghost coded = { sent_code T.code };

    ghost view = { λ w. record {
      posts = map (at_key w.letters) w.keys.items;
      room = min (w.letters.capacity - slab_len w.letters) (vec_capacity w.keys - length w.keys.items);
    } };

    ghost invariant = { λ w. IsWire w.letters w.keys.items w.first };
}

impl<T> Wire<T> {
    /// A wire on which no letter was put.
    pub fn new(alloc: Global) -> Wire<T>
        ensures { result ≡ record { posts = []; room = 0 } }
    {
        Wire {
            letters: Slab::new(alloc),
            keys: Vec::new(alloc),
            first: 0,
        }
    }

    /// How many letters were put on it.
    pub fn len(&self) -> usize
        ensures { result ≡ length self.now.posts }
    {
        self.keys.len()
    }

    /// The least number of a letter on it, or None where there is none.
    pub fn first(&self) -> Option<usize>
        ensures { IsLeast self.now.posts result }
    {
        if self.first < self.keys.len() {
            Some(self.first)
        } else {
            None
        }
    }

    /// The letter of a number.
    pub fn get(&self, number: usize) -> &Letter<T>
        requires { IsSome (posted self.now.posts number) }
        ensures { posted self.now.posts number ≡ Some result.now }
    {
        match self.keys[number] {
            Some(key) => &self.letters[key],
            None => unreachable!(),
        }
    }

    /// Makes room for so many letters more; for none it takes no memory.
    pub fn reserve(&mut self, more: usize) -> Result<(), NoMemory>
        ensures posts { self.new.posts ≡ self.old.posts }
        ensures made { OnOk result (more ≤ self.new.room) }
        ensures none { more ≡ 0 → IsOk result }
    {
        if more == 0 {
            return Ok(());
        }
        self.letters.reserve(more)?;
        self.keys.reserve(more)?;
        Ok(())
    }

    /// Puts a letter on it, for which there is room.
    pub fn push(&mut self, letter: Letter<T>)
        requires { 1 ≤ self.old.room }
        ensures posts { self.new.posts ≡ self.old.posts ++ Some letter ∷ [] }
        ensures room { self.old.room ≤ self.new.room + 1 }
    {
        let key = self.letters.insert_reserved(letter);
        self.keys.push_reserved(Some(key));
    }

    /// Takes the letter of a number off.
    pub fn remove(&mut self, number: usize) -> Letter<T>
        requires { IsSome (posted self.old.posts number) }
        ensures letter { posted self.old.posts number ≡ Some result }
        ensures posts { self.new.posts ≡ slice_set self.old.posts number None }
    {
        match self.keys[number] {
            Some(key) => {
                let letter = self.letters.remove(key);
                self.keys[number] = None;
                self.first = first_from(self.keys.as_slice(), self.first);
                letter
            }
            None => unreachable!(),
        }
    }
}

/// The least number from `first` on that has a key, or how many numbers there are.
fn first_from(keys: &[Option<usize>], first: usize) -> usize
    requires { first ≤ length keys.now }
    ensures { IsFirstFrom keys.now first result }
{
    let mut next = first;
    while next < keys.len() && keys[next].is_none() {
        next += 1;
    }
    next
}
