//! The journal of a cycle.

ghost use Rattle.std.specs.Prelude.{◌≡◌, ◌↔◌, ◌-◌, ◌<◌, ◌≤◌, [], ◌∷◌, ◌++◌, IsTrue, OnErr, OnOk, OnSome, length, slice_get};
ghost use Rattle.std.specs.Option.{option_copied};

use crate::event::Event;
use mesh_num::NoMemory;
use std::alloc::Global;
use std::marker::Model;

/// The events of a cycle in the order in which they came. Contracts see beside them how many more there is room for,
/// as `spare`.
#[derive(Debug, Drop)]
pub struct Journal {
    events: Vec<Event>,
}

impl Model for Journal {
    ghost use Rattle.std.specs.Prelude.{◌-◌, length, vec_capacity};
    ghost use Rattle.cycle_events.specs.Events.{Entered};

    ghost Value = { Entered };

    ghost view = { λ j. record { events = j.events.items; spare = vec_capacity j.events - length j.events.items } };
}

impl Journal {
    /// A journal with no event and no room.
    pub fn new(alloc: Global) -> Journal
        ensures { result ≡ record { events = []; spare = 0 } }
    {
        Journal {
            events: Vec::new(alloc),
        }
    }

    /// The journal of these events, which are moved in.
    pub fn from_vec(events: Vec<Event>) -> Journal
        ensures { result.events ≡ events.items }
    {
        Journal { events }
    }

    /// The events in order.
    pub fn as_slice(&self) -> &[Event]
        ensures { result.now ≡ self.now.events }
    {
        self.events.as_slice()
    }

    /// How many events there are.
    pub fn len(&self) -> usize
        ensures { result ≡ length self.now.events }
    {
        self.events.len()
    }

    /// Whether there are none.
    pub fn is_empty(&self) -> bool
        ensures { IsTrue result ↔ (self.now.events ≡ []) }
    {
        self.events.is_empty()
    }

    /// The event at a place, or None past the end.
    pub fn get(&self, at: usize) -> Option<&Event>
        ensures value { option_copied result ≡ slice_get self.now.events at }
        ensures within { OnSome result (at < length self.now.events) }
    {
        self.events.get(at)
    }

    /// Makes room for so many events more. After a refusal the events are as before.
    pub fn reserve(&mut self, more: usize) -> Result<(), NoMemory>
        ensures events { self.new.events ≡ self.old.events }
        ensures room { OnOk result (more ≤ self.new.spare) }
        ensures grown { self.old.spare ≤ self.new.spare }
    {
        self.events.reserve(more)?;
        Ok(())
    }

    /// Enters an event for which there is room.
    pub fn push_reserved(&mut self, event: Event)
        requires { 1 ≤ self.old.spare }
        ensures { self.new ≡ record { events = self.old.events ++ event ∷ []; spare = self.old.spare - 1 } }
    {
        self.events.push_reserved(event);
    }

    /// Enters an event. After a refusal the events are as before.
    pub fn push(&mut self, event: Event) -> Result<(), NoMemory>
        ensures entered { OnOk result (self.new.events ≡ self.old.events ++ event ∷ []) }
        ensures refused { OnErr result (self.new.events ≡ self.old.events) }
    {
        self.events.push(event)?;
        Ok(())
    }
}
