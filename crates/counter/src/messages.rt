//! The messages that a node has to send yet.

ghost use Rattle.std.specs.Prelude.{◌≡◌, ◌∷◌, [], OnOk};
ghost use Rattle.channel.specs.Queues.{TakesFirst};

use crate::Counter;
use channel::Channel;
use std::alloc::Global;
use std::collections::VecDeque;
use std::io;
use trace_props::{Event, HandedBack};

/// The payloads that were not sent yet, or that a view handed back, in order.
#[derive(Drop)]
pub struct Unsent {
    alloc: Global,
    payloads: VecDeque<Vec<u8>>,
}

impl Unsent {
    /// Nothing to send.
    pub fn new(alloc: Global) -> Unsent
        ensures { result.payloads.items ≡ [] }
    {
        Unsent {
            alloc,
            payloads: VecDeque::new(alloc),
        }
    }

    /// One more message, behind the others. It is empty: each message counts one.
    pub fn push(&mut self) -> io::Result<()> {
        self.payloads.push_back(Vec::new(self.alloc))?;
        Ok(())
    }

    /// A payload before all others.
    pub fn push_front(&mut self, payload: Vec<u8>) -> io::Result<()>
        ensures { OnOk result (self.new.payloads.items ≡ payload ∷ self.old.payloads.items) }
    {
        self.payloads.push_front(payload)?;
        Ok(())
    }

    /// Takes the first payload.
    pub fn pop(&mut self) -> Option<Vec<u8>>
        ensures { TakesFirst result self.old.payloads.items self.new.payloads.items }
    {
        self.payloads.pop_front()
    }

    // What a view handed back, before all others, in the order in which it was sent.
    fn take_back(&mut self, messages: &HandedBack) -> io::Result<()> {
        for message in messages.as_slice().iter().rev() {
            let payload = Vec::from_slice(self.alloc, message.payload.as_slice())?;
            self.push_front(payload)?;
        }
        Ok(())
    }
}

/// Takes all that happened in a channel. What an installed view hands back waits to be sent again.
pub fn taken_back(channel: &mut Channel<Counter>, unsent: &mut Unsent) -> io::Result<()> {
    while let Some(event) = channel.happened() {
        if let Event::Installed(install) = &event {
            unsent.take_back(&install.get().handed_back)?;
        }
    }
    Ok(())
}
