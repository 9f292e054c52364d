//! The order of a cycle's events, where it needs no mesh: lists of tasks that send each other letters in rounds.
//!
//! A list has three tasks for each round, in this order: it sends the letters that it owes, it reads those that are
//! due to it, and it computes. A tail of tasks follows, behind one barrier: no list begins it before all lists have
//! done all rounds. A worker (a seat) takes the next task of a list, works, and gives it back; letters lie on the wire
//! until one is delivered, at any time after it was sent, also while its reader works. So a cycle is a list of three
//! kinds of events, to take, to give and to deliver, and very many lists of events are legal.
//!
//! The laws hold for every legal list, over any number of lists, rounds, letters and tasks in the tail, and say nothing
//! of what lists and letters hold, which is a machine's matter (`Machine` of `specs/Events.antt`). Each stands on a
//! function with an empty body:
//!
//! | Law | What it says |
//! |---|---|
//! | [`letters_law`] | each due letter is in one place, on the wire or in the mail, from its sending to its reading, and else nowhere; each has its own number |
//! | [`order_law`] | what is read was sent before; a reading that is out has all its letters; the tail waits for all lists |
//! | [`lease_law`] | while a task is out, no event but its own give touches what it reads |
//! | [`events_law`] | a complete list of events has two for each task and one for each letter, and no legal list is longer |
//! | [`never_stuck_law`] | where not all is done, a task may be taken, one is out, or a letter is on the wire |
//! | [`readiness_law`] | counts that single events keep up mark exactly the lists whose next task may be taken |
//!
//! What a machine's lists and letters hold is carried through every legal list by `proofs/Carried.antt`: a machine
//! shows nine facts about single steps (`Carries`), and `replay_carried` gives that they hold in every state that is
//! reached.
#![tactic(auto)]

mod laws;

pub use laws::{events_law, lease_law, letters_law, never_stuck_law, order_law, readiness_law};

#[cfg(test)]
mod tests {
    use super::{events_law, lease_law, letters_law, never_stuck_law, order_law, readiness_law};

    #[test]
    fn laws_hold_at_any_types() {
        letters_law::<u64, bool, u8>();
        order_law::<u64, bool, u8>();
        lease_law::<u64, bool, u8>();
        events_law::<u64, bool, u8>();
        never_stuck_law::<u64, bool, u8>();
        readiness_law::<u64, bool, u8>();
    }
}
