//! Letters on their way: room for them, the wire, and the mailboxes of all lists.

ghost use Rattle.std.specs.Prelude.{◌≡◌, ◌+◌, ◌*◌, ◌^◌, ◌<◌, ◌≤◌, ◌⊎◌, ◌++◌, All, IfOk, IsOk, OnOk, [], length, map, replicate, slice_index_or, slice_set};
ghost use Rattle.cycle_tables.specs.Tables.{GoesTo, begun, numbered};
ghost use Rattle.cycle_tables.specs.Inside.{HasRoomLeft, HasRounds, IsRoomFor, MakeRoom, box_of, empty_box, read_by, put_letter, without_read};

use crate::letter::{Letter, Post};
use crate::list_state::{Due, ListState};
use crate::mailbox::Mailboxes;
use crate::readiness::due_in;
use crate::wire::Wire;
use mesh_num::NoMemory;
use std::alloc::Global;

/// The lists as a cycle begins.
pub fn begun(alloc: Global, due: &[Due]) -> Result<Vec<ListState>, NoMemory>
    ensures { IfOk result (λ lists. lists.items ≡ map begun due.now) }
{
    let lists = due
        .iter()
        .map(|due| ListState {
            due: *due,
            given: 0,
            out: None,
        })
        .collect(alloc)?;
    Ok(lists)
}

/// Mailboxes of so many rounds for so many lists.
pub fn empty_mail<T: Drop>(
    alloc: Global,
    lists: usize,
    rounds: usize,
) -> Result<Vec<Mailboxes<T>>, NoMemory>
    ensures { IfOk result (λ mail. mail.items ≡ replicate lists (replicate rounds empty_box)) }
{
    let mut mail = Vec::with_capacity(alloc, lists)?;
    for _ in 0..lists {
        mail.push_reserved(Mailboxes::new(alloc, rounds)?);
    }
    Ok(mail)
}

/// Makes room on the wire, and in the mailboxes, for letters of a round.
pub fn make_room<T>(
    wire: &mut Wire<T>,
    mail: &mut Vec<Mailboxes<T>>,
    lists: &[ListState],
    round: u32,
    letters: &[Post<T>],
) -> Result<(), NoMemory>
    requires mail { length mail.old.items ≡ length lists.now }
    requires round { letters.now ≡ [] ⊎ All (λ boxes. round < length boxes) mail.old.items }
    requires receivers { All (GoesTo (length lists.now)) letters.now }
    ensures posts { wire.new.posts ≡ wire.old.posts }
    ensures kept { MakeRoom mail.old.items mail.new.items }
    ensures on_wire { OnOk result (length letters.now ≤ wire.new.room) }
    ensures in_mail { OnOk result (All (IsRoomFor lists.now mail.new.items round) letters.now) }
    ensures none { letters.now ≡ [] → IsOk result }
{
    wire.reserve(letters.len())?;
    for post in letters {
        let due = due_in(lists[post.to as usize].due, round);
        let boxes = &mut mail[post.to as usize];
        boxes.reserve(round as usize, due as usize)?;
    }
    Ok(())
}

/// Puts letters of a round on the wire, with the next numbers.
pub fn put_on<T: Drop>(wire: &mut Wire<T>, round: u32, letters: Vec<Post<T>>)
    requires room { length letters.items ≤ wire.old.room }
    requires numbers { length wire.old.posts + length letters.items ≤ 2 ^ 32 }
    ensures { wire.new.posts ≡ wire.old.posts ++ numbered (length wire.old.posts) round letters.items }
{
    for post in letters {
        let number = wire.len() as u32;
        wire.push(Letter {
            number,
            round,
            to: post.to,
            content: post.content,
        });
    }
}

/// Takes the letters out that the task after so many reads.
pub fn read_mail<T>(
    mail: &mut Vec<Mailboxes<T>>,
    alloc: Global,
    rounds: u32,
    list: usize,
    given: u32,
) -> Vec<Letter<T>>
    requires rounds { 3 * rounds < 2 ^ 32 }
    requires list { list < length mail.old.items }
    requires boxes { All (HasRounds rounds) mail.old.items }
    ensures letters { result.items ≡ read_by rounds mail.old.items list given }
    ensures mail { mail.new.items ≡ without_read rounds mail.old.items list given }
{
    if given < 3 * rounds && given % 3 == 1 {
        let boxes = &mut mail[list];
        boxes.empty(alloc, (given / 3) as usize)
    } else {
        Vec::new(alloc)
    }
}

/// Puts a letter into its mailbox.
pub fn put_in<T>(mail: &mut Vec<Mailboxes<T>>, letter: Letter<T>)
    requires list { letter.to < length mail.old.items }
    requires round { letter.round < length (slice_index_or mail.old.items letter.to []) }
    requires room { HasRoomLeft (box_of mail.old.items letter.to letter.round) }
    ensures { mail.new.items ≡ put_letter mail.old.items letter }
{
    let boxes = &mut mail[letter.to as usize];
    boxes.push(letter);
}
