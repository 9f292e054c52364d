//! The events of a cycle.

ghost use Rattle.std.specs.Prelude.{◌≡◌};
ghost use Rattle.cycle_events.specs.Events.{seat_of};

use sparse_pool::Places;

/// A step of a cycle. A `list` is a partition's list of tasks, a `task` the number of tasks that it has given.
#[derive(Debug, Drop)]
pub enum Event {
    /// A seat takes the next task of a list, and is lent the buffers of the places.
    Take {
        seat: u32,
        list: u32,
        task: u32,
        places: Places,
    },
    /// A seat gives the work on a task: buffers are made at some places and freed at others.
    Give {
        seat: u32,
        list: u32,
        task: u32,
        made: Places,
        freed: Places,
    },
    /// A seat delivers the letter of a number: buffers are made at the places where something comes.
    Deliver {
        seat: u32,
        letter: u32,
        made: Places,
    },
}

impl Event {
    /// The seat whose event it is.
    pub fn seat(&self) -> u32
        ensures { result ≡ seat_of self.now }
    {
        match self {
            Event::Take { seat, .. } | Event::Give { seat, .. } | Event::Deliver { seat, .. } => {
                *seat
            }
        }
    }
}
