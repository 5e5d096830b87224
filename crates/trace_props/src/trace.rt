ghost use Rattle.std.specs.Prelude.{◌≡◌, ◌+◌, ◌<◌, ◌≤◌, ◌++◌, ◌∷◌, [], OnOk};
ghost use Rattle.trace_props.specs.Recorded.{IsShort, IsRecordable};

use crate::Event;
use std::alloc::{AllocError, Global};
use std::marker::Model;

/// A list of events in the order of time, whose payloads have at most `PAYLOAD` bytes each. Contracts see it as
/// the events and the room that is reserved for more.
#[derive(Debug, Drop)]
pub struct Trace {
    events: Vec<Event>,
}

impl Model for Trace {
    ghost use Rattle.std.specs.Prelude.{◌-◌, vec_len, vec_capacity};
    ghost use Rattle.trace_props.specs.Recorded.{Recorded, IsRecordable};

    ghost Value = { Recorded };

    ghost view = { λ t. record { events = t.events.items; room = vec_capacity t.events - vec_len t.events } };

    ghost invariant = { λ t. IsRecordable t.events.items };
}

impl Trace {
    /// The trace at the beginning: nothing happened. Takes no memory.
    pub fn new(alloc: Global) -> Trace
        ensures { result.events ≡ [] }
    {
        Trace {
            events: Vec::new(alloc),
        }
    }

    /// Makes room for more events; on refusal the trace is as before.
    pub fn reserve(&mut self, more: usize) -> Result<(), AllocError>
        ensures events { self.new.events ≡ self.old.events }
        ensures room { OnOk result (more ≤ self.new.room) }
    {
        self.events.reserve(more)
    }

    /// Adds what happened next, in room that was reserved.
    pub fn record(&mut self, event: Event)
        requires short { IsShort event }
        requires room { 1 ≤ self.old.room }
        ensures events { self.new.events ≡ self.old.events ++ event ∷ [] }
        ensures room { self.new.room + 1 ≡ self.old.room }
    {
        self.events.push_reserved(event);
    }

    /// What happened, in order.
    pub fn events(&self) -> &[Event]
        ensures value { result.now ≡ self.now.events }
        ensures short { IsRecordable result.now }
    {
        self.events.as_slice()
    }
}
