ghost use Rattle.std.specs.Prelude.{◌≡◌, ◌+◌, ◌<◌, ◌≤◌, ◌^◌, true, false, [], All, IfErr, IfNone, IfOk, IfSome, IsOk, IsSome, OnErr, OnOk, Some, is_some, length, ℕ};
ghost use Rattle.cycle_tables.specs.Tables.{GoesTo, HasPlace, IsLeast, NoneComing, all_tasks, at_start, delivered, given, is_done, is_sending, leases, letters_of, may_take, post_of, state_of, taken};
ghost use Rattle.cycle_tables.specs.Inside.{advanced, posted_by};

use crate::letter::{Letter, Post};
use crate::list_state::{Due, ListState};
use crate::mailbox::Mailboxes;
use crate::posting::{begun, empty_mail, make_room, put_in, put_on, read_mail};
use crate::readiness::{Tasks, mark, mark_all, may_start};
use crate::ready_set::ReadySet;
use crate::wire::Wire;
use mesh_num::NoMemory;
use std::alloc::Global;
use std::marker::Model;

/// The protocol of a cycle: where each list stands, and where each letter is.
#[derive(Drop)]
pub struct Tables<T> {
    alloc: Global,
    tasks: Tasks,
    lists: Vec<ListState>,
    wire: Wire<T>,
    mail: Vec<Mailboxes<T>>,
    ready: ReadySet,
    /// How many lists are past the barrier, how many have tasks left, and how many tasks are out.
    past: u32,
    left: u32,
    leased: u32,
}

impl<T> Model for Tables<T> {
    ghost use Rattle.cycle_tables.specs.Tables.{Protocol};
    ghost use Rattle.cycle_tables.specs.Letters.{protocol_code};
    ghost use Rattle.cycle_tables.specs.Inside.{IsTables, protocol_of};

    ghost Value = { Protocol T };

    ghost coded = { protocol_code T.code };

    ghost view = { λ t. protocol_of t.tasks.rounds t.tasks.tail t.lists.items t.wire.posts t.mail.items };

    ghost invariant = { λ t. IsTables t.tasks.rounds t.tasks.tail t.lists.items t.wire.posts t.mail.items t.ready
        t.past t.left t.leased };
}

impl<T> Tables<T> {
    /// The tables of a cycle that begins, with what is due to each list.
    pub fn new(alloc: Global, rounds: u32, tail: u32, due: &[Due]) -> Result<Tables<T>, NoMemory>
    where
        T: Drop,
        requires rounds { 1 ≤ rounds }
        requires tasks { all_tasks rounds tail < 2 ^ 32 }
        requires lists { length due.now < 2 ^ 32 }
        ensures { IfOk result (λ tables. tables ≡ at_start rounds tail due.now) }
    {
        let tasks = Tasks { rounds, tail };
        let lists = begun(alloc, due)?;
        let mail = empty_mail(alloc, due.len(), rounds as usize)?;
        let mut ready = ReadySet::new(alloc, due.len())?;
        mark_all(&mut ready, tasks, false, lists.as_slice(), mail.as_slice());
        Ok(Tables {
            alloc,
            tasks,
            lists,
            wire: Wire::new(alloc),
            mail,
            ready,
            past: 0,
            left: due.len() as u32,
            leased: 0,
        })
    }

    /// How many lists there are.
    pub fn lists(&self) -> u32
        ensures { result ≡ length self.now.lists }
    {
        self.lists.len() as u32
    }

    /// Where a list stands.
    pub fn state(&self, list: u32) -> ListState
        requires { list < length self.now.lists }
        ensures { result ≡ state_of self.now list }
    {
        self.lists[list as usize]
    }

    /// Whether all lists have given all their tasks, and no letter is on the wire.
    pub fn is_done(&self) -> bool
        ensures { result ≡ is_done self.now }
    {
        self.left == 0 && self.wire.first().is_none()
    }

    /// How many tasks are out.
    pub fn leases(&self) -> u32
        ensures { result ≡ leases self.now }
    {
        self.leased
    }

    /// Some list whose next task may be taken, or None where there is none.
    pub fn ready(&self) -> Option<u32>
        ensures some { IfSome result (λ list. may_take self.now list ≡ true) }
        ensures none { IfNone result ((list : ℕ) → may_take self.now list ≡ false) }
    {
        match self.ready.first() {
            Some(list) => Some(list as u32),
            None => None,
        }
    }

    /// Whether the next task of a list may be taken.
    pub fn may_take(&self, list: u32) -> bool
        requires { list < length self.now.lists }
        ensures { result ≡ may_take self.now list }
    {
        self.ready.contains(list as usize)
    }

    /// The least number of a letter on the wire, or None where there is none.
    pub fn on_wire(&self) -> Option<u32>
        ensures { IsLeast self.now.posts result }
    {
        match self.wire.first() {
            Some(number) => Some(number as u32),
            None => None,
        }
    }

    /// The letter of a number, which is on the wire.
    pub fn letter(&self, number: u32) -> &Letter<T>
        requires { IsSome (post_of self.now number) }
        ensures { post_of self.now number ≡ Some result.now }
    {
        self.wire.get(number as usize)
    }

    /// A seat takes the next task of a list, with the letters that it reads, in the order in which they were delivered.
    pub fn take(&mut self, list: u32, seat: u32) -> Vec<Letter<T>>
        requires may_take { may_take self.old list ≡ true }
        requires none_coming { NoneComing self.old list }
        ensures letters { result.items ≡ letters_of self.old list }
        ensures taken { self.new ≡ taken self.old list seat }
    {
        let i = list as usize;
        let state = self.lists[i];
        self.lists[i] = ListState {
            due: state.due,
            given: state.given,
            out: Some(seat),
        };
        self.leased += 1;
        self.ready.set(i, false);
        read_mail(
            &mut self.mail,
            self.alloc,
            self.tasks.rounds,
            i,
            state.given,
        )
    }

    /// The task of a list that is out is given, with the letters that it sends. Where there is no memory for the
    /// letters they are handed back, and the tables are as before; with no letter it takes none.
    pub fn give(&mut self, list: u32, letters: Vec<Post<T>>) -> Result<(), Vec<Post<T>>>
    where
        T: Drop,
        requires list { list < length self.old.lists }
        requires out { is_some (state_of self.old list).out ≡ true }
        requires sends { is_sending self.old.rounds (state_of self.old list).given ≡ false → letters.items ≡ [] }
        requires receivers { All (GoesTo (length self.old.lists)) letters.items }
        requires numbers { length self.old.posts + length letters.items ≤ 2 ^ 32 }
        ensures given { OnOk result (self.new ≡ given self.old list letters.items) }
        ensures none { letters.items ≡ [] → IsOk result }
        ensures unchanged { OnErr result (self.new ≡ self.old) }
        ensures handed_back { IfErr result (λ back. back.items ≡ letters.items) }
    {
        match self.post(list, letters) {
            Ok(()) => {
                self.advance(list);
                Ok(())
            }
            Err(letters) => Err(letters),
        }
    }

    /// The letters that the next task of a list sends are put on the wire.
    fn post(&mut self, list: u32, letters: Vec<Post<T>>) -> Result<(), Vec<Post<T>>>
    where
        T: Drop,
        requires list { list < length self.old.lists }
        requires sends { is_sending self.old.rounds (state_of self.old list).given ≡ false → letters.items ≡ [] }
        requires receivers { All (GoesTo (length self.old.lists)) letters.items }
        requires numbers { length self.old.posts + length letters.items ≤ 2 ^ 32 }
        ensures posted { OnOk result (self.new ≡ posted_by self.old list letters.items) }
        ensures none { letters.items ≡ [] → IsOk result }
        ensures unchanged { OnErr result (self.new ≡ self.old) }
        ensures handed_back { IfErr result (λ back. back.items ≡ letters.items) }
    {
        let round = self.lists[list as usize].given / 3;
        if make_room(
            &mut self.wire,
            &mut self.mail,
            self.lists.as_slice(),
            round,
            letters.as_slice(),
        )
        .is_err()
        {
            return Err(letters);
        }
        put_on(&mut self.wire, round, letters);
        Ok(())
    }

    /// The task of a list that is out is done.
    fn advance(&mut self, list: u32)
        requires list { list < length self.old.lists }
        requires out { is_some (state_of self.old list).out ≡ true }
        ensures { self.new ≡ advanced self.old list }
    {
        let i = list as usize;
        let state = self.lists[i];
        let done = state.given + 1;
        self.lists[i] = ListState {
            due: state.due,
            given: done,
            out: None,
        };
        self.leased -= 1;
        self.left -= u32::from(done == 3 * self.tasks.rounds + self.tasks.tail);
        self.past += u32::from(done == 3 * self.tasks.rounds);
        let past = self.past as usize == self.lists.len();
        mark(
            &mut self.ready,
            self.tasks,
            past,
            self.lists.as_slice(),
            self.mail.as_slice(),
            i,
            done == 3 * self.tasks.rounds,
        );
    }

    /// A letter goes from the wire to the mailbox of its list.
    pub fn deliver(&mut self, number: u32)
        requires on_wire { IsSome (post_of self.old number) }
        requires place { IfSome (post_of self.old number) (HasPlace self.old) }
        ensures { self.new ≡ delivered self.old number }
    {
        let letter = self.wire.remove(number as usize);
        let list = letter.to as usize;
        put_in(&mut self.mail, letter);
        let past = self.past as usize == self.lists.len();
        let is_ready = may_start(
            self.tasks,
            past,
            self.lists.as_slice(),
            self.mail.as_slice(),
            list,
        );
        self.ready.set(list, is_ready);
    }
}
