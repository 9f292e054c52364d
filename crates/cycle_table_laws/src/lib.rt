//! The tables of `cycle_tables` show the machine of `cycle_rounds`, and each event changes both alike.
//!
//! `Shows` (`specs/Shows.antt`) ties a protocol to a state of the machine: as many tasks given, the same seats, the same
//! letters on the wire under their numbers, and in each mailbox those that were delivered and not read. What a letter
//! carries may be anything that tells what it is about and what it holds. Each law stands on a function with an empty
//! body:
//!
//! | Law | What it says |
//! |---|---|
//! | [`begin_law`] | the tables of a cycle that begins show its first state |
//! | [`readiness_law`] | a task may be taken by the tables exactly where that is legal; all is done exactly where the cycle is complete; where there is nothing to take or deliver and not all is done, a task is out |
//! | [`take_law`], [`give_law`], [`deliver_law`] | a legal event meets what the tables ask for, and they then show the next state |
//! | [`lease_law`] | the letters that went with a task are those that the machine reads when its work is given |
//!
//! The lemmas behind them, in `proofs/`, hold for any relation between what a letter carries and what it holds.
#![tactic(auto)]

mod laws;

pub use laws::{begin_law, deliver_law, give_law, lease_law, readiness_law, take_law};

#[cfg(test)]
mod tests {
    use super::{begin_law, deliver_law, give_law, lease_law, readiness_law, take_law};

    #[test]
    fn laws_hold_at_any_types() {
        begin_law::<u64, bool, u8, u32>();
        readiness_law::<u64, bool, u8, u32>();
        take_law::<u64, bool, u8, u32>();
        give_law::<u64, bool, u8, u32>();
        deliver_law::<u64, bool, u8, u32>();
        lease_law::<u64, bool, u8>();
    }
}
