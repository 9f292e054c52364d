//! The text of a cycle's journal.
//!
//! - [`events_text`] gives it whole: two lines of heading, a line for each event in order, and `end`.
//! - [`push_events_heading`], [`push_event_line`] and [`push_event_lines`] append its parts to a text. Where they are
//!   refused for want of memory, it may end with a part of what was to be appended.
//! - [`text_law`]: no two journals have one text under one heading.
//!
//! The lines are defined in `specs/Lines.antt`, the whole text in `specs/Journal.antt`.
#![tactic(auto)]

mod heading;
mod journal;
mod lines;

pub use heading::{Heading, push_events_heading};
pub use journal::{events_text, push_event_lines, text_law};
pub use lines::push_event_line;

#[cfg(test)]
mod tests {
    use super::{Heading, push_event_lines, push_events_heading};
    use cycle_events::Event;
    use sparse_pool::{Place, Places};
    use std::alloc::Global;
    use std::test::Fail;

    /// The lines of a heading and of an event of each kind.
    const LINES: &[u8] = b"parthenon-whole events 1\ncycle 1 stages 2 partitions 2 seats 3\n\
        take 1 1 0 1.0\ngive 0 0 2 made freed 1.0\ndeliver 1 2 made 1.0\n";

    fn one_place(alloc: Global) -> Option<Places> {
        let mut places = Places::new(alloc);
        places.push(Place { block: 1, field: 0 }).ok()?;
        Some(places)
    }

    /// An event of each kind.
    fn events(alloc: Global) -> Option<[Event; 3]> {
        let places = one_place(alloc)?;
        let freed = one_place(alloc)?;
        let made = one_place(alloc)?;
        let take = Event::Take {
            seat: 1,
            list: 1,
            task: 0,
            places,
        };
        let give = Event::Give {
            seat: 0,
            list: 0,
            task: 2,
            made: Places::new(alloc),
            freed,
        };
        let deliver = Event::Deliver {
            seat: 1,
            letter: 2,
            made,
        };
        Some([take, give, deliver])
    }

    fn push_events(alloc: Global, into: &mut Vec<u8>) -> bool {
        match events(alloc) {
            Some(events) => push_event_lines(&events, into).is_ok(),
            None => false,
        }
    }

    fn are_written(alloc: Global) -> bool {
        let heading = Heading {
            cycle: 1,
            stages: 2,
            partitions: 2,
            seats: 3,
        };
        let mut text = Vec::new(alloc);
        push_events_heading(heading, &mut text).is_ok()
            && push_events(alloc, &mut text)
            && text.as_slice() == LINES
    }

    #[test]
    fn lines_are_written(rt: HostRuntime) -> Result<(), Fail> {
        assert!(rt; are_written(rt.alloc()));
        Ok(())
    }
}
