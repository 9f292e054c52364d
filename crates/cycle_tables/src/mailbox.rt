//! Mailboxes, whose room contracts see beside their letters.

ghost use Rattle.std.specs.Prelude.{◌≡◌, ◌<◌, ◌≤◌, [], ◌∷◌, ◌++◌, IfOk, OnOk, length, replicate, slice_set};
ghost use Rattle.cycle_tables.specs.Letters.{Box};
ghost use Rattle.cycle_tables.specs.Inside.{HasRoomLeft, MakesRoom, box_in, empty_box, with_letter_in};

use crate::letter::Letter;
use mesh_num::NoMemory;
use std::alloc::Global;
use std::marker::Model;
use std::mem;

/// The letters of a round that were delivered to a list.
#[derive(Drop)]
struct Mailbox<T> {
    letters: Vec<Letter<T>>,
}

impl<T> Model for Mailbox<T> {
    ghost use Rattle.std.specs.Prelude.{vec_capacity};
    ghost use Rattle.cycle_tables.specs.Letters.{Box, box_code};

    ghost Value = { Box T };

    ghost coded = { box_code T.code };

    ghost view = { λ b. record { letters = b.letters.items; room = vec_capacity b.letters } };
}

impl<T> Mailbox<T> {
    /// A mailbox with no letter and no room.
    fn new(alloc: Global) -> Mailbox<T>
        ensures { result ≡ empty_box }
    {
        Mailbox {
            letters: Vec::new(alloc),
        }
    }

    /// Makes room for so many letters in all.
    fn reserve(&mut self, all: usize) -> Result<(), NoMemory>
        ensures letters { self.new.letters ≡ self.old.letters }
        ensures room { self.old.room ≤ self.new.room }
        ensures made { OnOk result (all ≤ self.new.room) }
    {
        let more = all.saturating_sub(self.letters.len());
        self.letters.reserve(more)?;
        Ok(())
    }

    /// Puts a letter in, for which there is room.
    fn push(&mut self, letter: Letter<T>)
        requires { HasRoomLeft self.old }
        ensures { self.new ≡ record self.old { letters = self.old.letters ++ letter ∷ [] } }
    {
        self.letters.push_reserved(letter);
    }

    /// Takes the letters out.
    fn empty(&mut self, alloc: Global) -> Vec<Letter<T>>
        ensures letters { result.items ≡ self.old.letters }
        ensures none { self.new ≡ empty_box }
    {
        mem::replace(&mut self.letters, Vec::new(alloc))
    }

    /// How many letters are in it.
    fn len(&self) -> usize
        ensures { result ≡ length self.now.letters }
    {
        self.letters.len()
    }
}

/// The mailboxes of a list, by round.
#[derive(Drop)]
pub struct Mailboxes<T> {
    by_round: Vec<Mailbox<T>>,
}

impl<T> Model for Mailboxes<T> {
    ghost use Rattle.std.specs.Prelude.{List};
    ghost use Rattle.std.specs.Coded.{coded_list};
    ghost use Rattle.cycle_tables.specs.Letters.{Box, box_code};

    ghost Value = { List (Box T) };

    ghost coded = { coded_list (box_code T.code) };

    ghost view = { λ boxes. boxes.by_round.items };
}

impl<T> Mailboxes<T> {
    /// A mailbox for each of so many rounds, with no letter.
    pub fn new(alloc: Global, rounds: usize) -> Result<Mailboxes<T>, NoMemory>
    where
        T: Drop,
        ensures { IfOk result (λ boxes. boxes ≡ replicate rounds empty_box) }
    {
        let mut by_round = Vec::with_capacity(alloc, rounds)?;
        for _ in 0..rounds {
            by_round.push_reserved(Mailbox::new(alloc));
        }
        Ok(Mailboxes { by_round })
    }

    /// How many letters of a round are in their mailbox.
    pub fn len(&self, round: usize) -> usize
        requires { round < length self.now }
        ensures { result ≡ length (box_in self.now round).letters }
    {
        let mailbox = &self.by_round[round];
        mailbox.len()
    }

    /// Makes room for so many letters of a round in all.
    pub fn reserve(&mut self, round: usize, all: usize) -> Result<(), NoMemory>
        requires { round < length self.old }
        ensures room { MakesRoom self.old self.new }
        ensures made { OnOk result (all ≤ (box_in self.new round).room) }
    {
        let mailbox = &mut self.by_round[round];
        mailbox.reserve(all)
    }

    /// Puts a letter into the mailbox of its round.
    pub fn push(&mut self, letter: Letter<T>)
        requires round { letter.round < length self.old }
        requires room { HasRoomLeft (box_in self.old letter.round) }
        ensures { self.new ≡ with_letter_in self.old letter }
    {
        let mailbox = &mut self.by_round[letter.round as usize];
        mailbox.push(letter);
    }

    /// Takes the letters of a round out.
    pub fn empty(&mut self, alloc: Global, round: usize) -> Vec<Letter<T>>
        requires { round < length self.old }
        ensures letters { result.items ≡ (box_in self.old round).letters }
        ensures none { self.new ≡ slice_set self.old round empty_box }
    {
        let mailbox = &mut self.by_round[round];
        mailbox.empty(alloc)
    }
}
