//! The tables of `cycle_tables` follow the journal of a cycle, event by event.
//!
//! `Follows` (`specs/Follows.antt`) ties tables to a journal of `cycle_events`: they show the state that it leads to. Each
//! law stands on a function with an empty body, and holds for every cycle whose kernels meet what `sparse_rounds` asks
//! of them, and whatever letters carry, as long as that tells what they are about and what they hold:
//!
//! | Law | What it says |
//! |---|---|
//! | [`start_law`] | the tables of a cycle that begins follow the journal without events; an entry leads to the next state |
//! | [`readiness_law`] | tables that follow a journal tell which tasks may be taken, which letters are on the wire, and whether all is done |
//! | [`event_law`] | a task that may be taken, the work on one that is out, and a letter on the wire meet what the tables ask for, and the tables follow the journal with the event's entry |
//! | [`work_law`] | what the tables say can be done next ([`next_work`]) is so in that state: a task, a letter, nothing since all is done, or nothing until one of the tasks that are out is given |
//! | [`round_law`] | letters on the wire that tell their rounds themselves go on to do so (`specs/Rounds.antt`) |
#![tactic(auto)]

mod laws;
mod work;

pub use laws::{event_law, readiness_law, round_law, start_law, work_law};
pub use work::{NextWork, next_work};

#[cfg(test)]
mod tests {
    use super::{NextWork, event_law, next_work, readiness_law, round_law, start_law, work_law};
    use cycle_tables::{Due, Tables};
    use std::alloc::Global;
    use std::test::Fail;

    #[test]
    fn laws_hold_at_any_types() {
        start_law::<u64, u64, u8, u16, u32, bool, u8>();
        readiness_law::<u64, u64, u8, u16, u32, bool, u8>();
        event_law::<u64, u64, u8, u16, u32, bool, u8>();
        round_law::<u8>();
        work_law::<u64, u64, u8, u16, u32, bool, u8>();
    }

    /// What can be done next as a cycle of one list without letters begins, and once its first task is out.
    fn first_two(alloc: Global) -> Option<(NextWork, NextWork)> {
        let due = [Due {
            ghosts: 0,
            fluxes: 0,
        }];
        let mut tables: Tables<u8> = Tables::new(alloc, 2, 3, &due).ok()?;
        let first = next_work(&tables);
        tables.take(0, 5);
        Some((first, next_work(&tables)))
    }

    #[test]
    fn a_task_is_next_and_then_it_is_waited_for(rt: HostRuntime) -> Result<(), Fail> {
        let task = NextWork::Task { list: 0 };
        let waiting = NextWork::Waiting { out: 1 };
        assert!(rt; first_two(rt.alloc()) == Some((task, waiting)));
        Ok(())
    }
}
