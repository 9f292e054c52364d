//! The journal of a cycle: which events came, in which order, and at which places buffers were lent, made and freed.
//!
//! Each partition has a list of tasks. A seat takes the next task of a list with the buffers that it is lent, gives the
//! work back, or delivers a letter. An [`Event`] tells this with the task's number and its places; a [`Journal`] is the
//! events in order, with the room for more that was made ahead. The state in which an event comes tells the task and
//! the places, so a journal tells no more than the order of the events, and can be tested by it.
//!
//! | File of `specs/` | What a reader has to believe |
//! |---|---|
//! | `Cycles` | a cycle: its kernels, the run that it starts from, its blocks and fields; the state that events lead to |
//! | `Places` | the places that a task is lent, and those that an event makes and frees, by block, then field |
//! | `Journals` | which events are legal where, and what they tell; journals, and complete ones |
//! | `Packs` | the epoch of a list, and when a pack of places is true of a journal |
//! | `Laws`, `Epochs`, `Leases`, `Changes` | the laws below |
//!
//! | Law | What it says |
//! |---|---|
//! | [`history_law`] | a journal without its places is a history of the protocol, each history is told by exactly one journal, and a legal event follows a journal |
//! | [`agreement_law`] | the state that a journal leads to agrees with the masked serial run; idle counts wait for the check |
//! | [`end_law`] | a complete journal ends as that run does and has exactly so many events; one that is not complete can go on |
//! | [`epoch_law`] | the epoch of a list counts the changes of its buffers; a pack that is true at an epoch has the list's places as long as the epoch stays, and a Take tells them |
//! | [`lease_law`] | a lease has its task's places, by block, then field, none twice, each with its buffer; buffers and letters agree with the mesh of its stage; while it is out no other event changes them, and buffers may come beneath it |
//! | [`change_law`] | a letter of ghosts makes the places of its receiver that lack a buffer and get something that is not zero, one of flux sums makes none; a Give makes and frees what its task says |
//!
//! The laws hold for all kernels that meet what `sparse_rounds` asks of them. Each stands on a function with an empty
//! body. Numbers: a place is a block and a field; a letter has its number in the cycle; `spare` counts events.
#![tactic(auto)]

mod drops;
mod event;
mod journal;
mod laws;

pub use drops::Drops;
pub use event::Event;
pub use journal::Journal;
pub use laws::{agreement_law, change_law, end_law, epoch_law, history_law, lease_law};

#[cfg(test)]
mod tests {
    use super::{
        Event, Journal, agreement_law, change_law, end_law, epoch_law, history_law, lease_law,
    };
    use sparse_pool::Places;
    use std::alloc::Global;
    use std::test::Fail;

    #[test]
    fn laws_hold_at_any_types() {
        history_law::<u64, u64, u8, u16, u32, bool>();
        agreement_law::<u64, u64, u8, u16, u32, bool>();
        end_law::<u64, u64, u8, u16, u32, bool>();
        epoch_law::<u64, u64, u8, u16, u32, bool>();
        lease_law::<u64, u64, u8, u16, u32, bool>();
        change_law::<u64, u64, u8, u16, u32, bool>();
    }

    /// The seats of a journal with two events, the first of which has room that was made before.
    fn seats(alloc: Global) -> Option<(u32, u32)> {
        let mut journal = Journal::new(alloc);
        journal.reserve(1).ok()?;
        journal.push_reserved(Event::Deliver {
            seat: 3,
            letter: 5,
            made: Places::new(alloc),
        });
        let last = Event::Take {
            seat: 4,
            list: 6,
            task: 0,
            places: Places::new(alloc),
        };
        journal.push(last).ok()?;
        match journal.as_slice() {
            [first, second] => Some((first.seat(), second.seat())),
            _ => None,
        }
    }

    #[test]
    fn events_stand_in_the_order_in_which_they_came(rt: HostRuntime) -> Result<(), Fail> {
        assert!(rt; seats(rt.alloc()) == Some((3, 4)));
        Ok(())
    }
}
