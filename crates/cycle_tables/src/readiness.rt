//! Which lists can go on: the test of one list, and the marks of all.

ghost use Rattle.std.specs.Prelude.{◌≡◌, ◌&&◌, ◌<◌, ◌^◌, false, true, All, Bool, ℕ, length, slice_index_or, slice_set};
ghost use Rattle.cycle_tables.specs.Tables.{all_tasks, can_start, due_in};
ghost use Rattle.cycle_tables.specs.Inside.{AreMarked, HasRounds, come_in, may_start};

use crate::list_state::{Due, ListState};
use crate::mailbox::Mailboxes;
use crate::ready_set::ReadySet;

/// How many rounds there are, and how many tasks of the tail.
#[derive(Clone, Copy, Debug)]
pub struct Tasks {
    pub rounds: u32,
    pub tail: u32,
}

/// How many letters of a round are due.
pub fn due_in(due: Due, round: u32) -> u32
    ensures { result ≡ due_in due round }
{
    if round % 2 == 0 {
        due.ghosts
    } else {
        due.fluxes
    }
}

/// Whether the next task of a list may be taken, where so many letters of its round have come.
fn can_start(tasks: Tasks, past: bool, list: ListState, come: usize) -> bool
    requires { all_tasks tasks.rounds tasks.tail < 2 ^ 32 }
    ensures { result ≡ can_start tasks.rounds tasks.tail past list come }
{
    if list.out.is_some() || list.given >= 3 * tasks.rounds + tasks.tail {
        return false;
    }
    if list.given >= 3 * tasks.rounds {
        return past;
    }
    list.given % 3 != 1 || come == due_in(list.due, list.given / 3) as usize
}

/// How many letters came to a list, of the round of its next task.
fn come_to<T>(tasks: Tasks, list: ListState, boxes: &Mailboxes<T>) -> usize
    requires { length boxes.now ≡ tasks.rounds }
    ensures { result ≡ come_in boxes.now list.given }
{
    let round = list.given / 3;
    if round < tasks.rounds {
        boxes.len(round as usize)
    } else {
        0
    }
}

/// Whether the next task of a list may be taken.
pub fn may_start<T>(
    tasks: Tasks,
    past: bool,
    lists: &[ListState],
    mail: &[Mailboxes<T>],
    list: usize,
) -> bool
    requires tasks { all_tasks tasks.rounds tasks.tail < 2 ^ 32 }
    requires list { list < length lists.now }
    requires mail { length mail.now ≡ length lists.now }
    requires rounds { All (HasRounds tasks.rounds) mail.now }
    ensures { result ≡ may_start tasks.rounds tasks.tail past lists.now mail.now list }
{
    let boxes = &mail[list];
    let come = come_to(tasks, lists[list], boxes);
    can_start(tasks, past, lists[list], come)
}

/// Marks the lists whose next task may be taken.
pub fn mark_all<T>(
    ready: &mut ReadySet,
    tasks: Tasks,
    past: bool,
    lists: &[ListState],
    mail: &[Mailboxes<T>],
)
    requires tasks { all_tasks tasks.rounds tasks.tail < 2 ^ 32 }
    requires ready { length ready.old ≡ length lists.now }
    requires mail { length mail.now ≡ length lists.now }
    requires rounds { All (HasRounds tasks.rounds) mail.now }
    ensures length { length ready.new ≡ length lists.now }
    ensures marks { AreMarked tasks.rounds tasks.tail past lists.now mail.now ready.new }
{
    for list in 0..lists.len() {
        ready.set(list, may_start(tasks, past, lists, mail, list));
    }
}

/// Marks one list, or all where it is the last that comes to the barrier.
pub fn mark<T>(
    ready: &mut ReadySet,
    tasks: Tasks,
    past: bool,
    lists: &[ListState],
    mail: &[Mailboxes<T>],
    list: usize,
    comes: bool,
)
    requires tasks { all_tasks tasks.rounds tasks.tail < 2 ^ 32 }
    requires list { list < length lists.now }
    requires ready { length ready.old ≡ length lists.now }
    requires mail { length mail.now ≡ length lists.now }
    requires rounds { All (HasRounds tasks.rounds) mail.now }
    ensures length { length ready.new ≡ length lists.now }
    ensures all { (past && comes) ≡ true → AreMarked tasks.rounds tasks.tail past lists.now mail.now ready.new }
    ensures one { let marked = may_start tasks.rounds tasks.tail past lists.now mail.now list in
        (past && comes) ≡ false → ready.new ≡ slice_set ready.old list marked }
{
    if past && comes {
        mark_all(ready, tasks, past, lists, mail);
    } else {
        ready.set(list, may_start(tasks, past, lists, mail, list));
    }
}
