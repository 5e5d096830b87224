ghost use Rattle.std.specs.Prelude.{◌≡◌, [], IfOk};

use address::{Address, Bytes, ViewId};
use std::alloc::{AllocError, Global};
use std::marker::Model;
use view::{Addresses, View};

/// A message as its sender knows it: its number among those it sent in the view, from 1, and its payload.
#[derive(Debug, Drop)]
pub struct Numbered {
    pub number: u64,
    pub payload: Bytes,
}

/// A message as all know it: who sent it, its number among those sent by that member in the view, its payload.
#[derive(Debug, Drop)]
pub struct Message {
    pub sender: Address,
    pub number: u64,
    pub payload: Bytes,
}

/// A member sends a message in its view.
#[derive(Debug, Drop)]
pub struct Sending {
    pub member: Address,
    pub view: ViewId,
    pub message: Numbered,
}

/// A member delivers a message that was sent in its view.
#[derive(Debug, Drop)]
pub struct Delivery {
    pub member: Address,
    pub view: ViewId,
    pub message: Message,
}

/// A member installs a view: from which it comes, who comes from there with it (itself among them), its own messages of the
/// old view that were not delivered to it, and the coordinator's state where it comes from elsewhere than the coordinator.
#[derive(Debug)]
pub struct Install {
    pub member: Address,
    pub previous: Option<ViewId>,
    pub view: View,
    pub together: Addresses,
    pub handed_back: HandedBack,
    pub given: Option<Bytes>,
}

impl Drop for Install {
    fn drop(self) {
        let Install {
            member: _,
            previous: _,
            view: _,
            together: _,
            handed_back: _,
            given: _,
        } = self;
    }
}

/// An install in a place of its own, so that all other events stay small. Contracts see the install.
#[derive(Debug, Drop)]
pub struct BoxedInstall {
    install: Box<Install>,
}

impl Model for BoxedInstall {
    ghost use Rattle.trace_props.specs.declared.event.Install.{Install};

    ghost Value = { Install };

    ghost view = { λ b. b.install.value };
}

impl BoxedInstall {
    /// An install in a place of its own.
    pub fn new(alloc: Global, install: Install) -> Result<BoxedInstall, AllocError>
        ensures { IfOk result (λ b. b ≡ install) }
    {
        Ok(BoxedInstall {
            install: Box::new(alloc, install)?,
        })
    }

    /// The install.
    pub fn get(&self) -> &Install
        ensures { result.now ≡ self.now }
    {
        &self.install
    }
}

/// What happens to a member of a group (docs/GUARANTEES.md, "Traces").
#[derive(Debug)]
pub enum Event {
    /// It begins to run.
    Started(Address),
    /// It sends a message.
    Sent(Sending),
    /// It delivers a message.
    Delivered(Delivery),
    /// It may send nothing until its next view.
    Blocked(Address),
    /// It installs a view.
    Installed(BoxedInstall),
    /// It has left.
    Left(Address),
    /// It has crashed.
    Crashed(Address),
}

impl Drop for Event {
    fn drop(self) {
        match self {
            Event::Started(_) => {}
            Event::Sent(_) => {}
            Event::Delivered(_) => {}
            Event::Blocked(_) => {}
            Event::Installed(_) => {}
            Event::Left(_) => {}
            Event::Crashed(_) => {}
        }
    }
}

/// The messages that are handed back to their sender, which contracts see as their list.
#[derive(Debug, Drop)]
pub struct HandedBack {
    items: Vec<Numbered>,
}

impl Model for HandedBack {
    ghost use Rattle.std.specs.Prelude.{List};
    ghost use Rattle.trace_props.specs.declared.event.Numbered.{Numbered};

    ghost Value = { List Numbered };

    ghost view = { λ h. h.items.items };
}

impl HandedBack {
    /// Nothing handed back. Takes no memory.
    pub fn nothing(alloc: Global) -> HandedBack
        ensures { result ≡ [] }
    {
        HandedBack {
            items: Vec::new(alloc),
        }
    }

    /// The messages of a vector. Takes no memory.
    pub fn from_vec(items: Vec<Numbered>) -> HandedBack
        ensures { result ≡ items.items }
    {
        HandedBack { items }
    }

    /// Its messages in order.
    pub fn as_slice(&self) -> &[Numbered]
        ensures { result.now ≡ self.now }
    {
        self.items.as_slice()
    }
}
