ghost use Rattle.std.specs.Prelude.{◌≡◌, ◌==◌, ◌++◌, ◌∷◌, [], not, length, IfOk, OnOk, OnErr};
ghost use Rattle.replicated_map.specs.Serving.{delivered, heard, installed, noted, nothing_heard};

use crate::waiting::hand_back;
use crate::{Answer, Fate, ReplicatedMap};
use address::{Address, ViewId};
use application::FollowedMember;
use std::alloc::{AllocError, Global};
use std::marker::Model;
use std::mem::replace;
use trace_props::{Delivery, Event, Install};

/// What a node knows by the events of its member, with a copy of the map, and the answers that nobody has taken.
pub struct MapService {
    alloc: Global,
    followed: FollowedMember<ReplicatedMap>,
    answers: Vec<Answer>,
}

impl Drop for MapService {
    fn drop(self) {
        let MapService {
            alloc: _,
            followed: _,
            answers: _,
        } = self;
    }
}

impl Model for MapService {
    ghost use Rattle.replicated_map.specs.Serving.{Serving};

    ghost Value = { Serving };

    ghost view = { λ m. record { followed = m.followed; answers = m.answers.items } };
}

impl MapService {
    /// The service of a member to which nothing happened yet. `AllocError` (7) without memory.
    pub fn new(alloc: Global, own: Address) -> Result<MapService, AllocError>
        ensures { IfOk result (λ s. s ≡ nothing_heard own) }
    {
        Ok(MapService {
            alloc,
            followed: FollowedMember::new(alloc, own)?,
            answers: Vec::new(alloc),
        })
    }

    /// The map after all that was heard. Other members may have delivered more, or less.
    pub fn copy(&self) -> &ReplicatedMap
        ensures { result.now ≡ self.now.followed.copy }
    {
        self.followed.copy()
    }

    /// The view that its member installed last; `None` before the first.
    pub fn view(&self) -> Option<ViewId>
        ensures { result ≡ self.now.followed.view }
    {
        self.followed.view()
    }

    /// How many messages its member delivered in this view.
    pub fn place(&self) -> u64
        ensures { result ≡ self.now.followed.place }
    {
        self.followed.place()
    }

    /// How many tickets wait for a message of its member.
    pub fn waits(&self) -> usize
        ensures { result ≡ length self.now.followed.waiting }
    {
        self.followed.waits()
    }

    /// A message of this number was sent in the view for this ticket: its fate will be the ticket's answer.
    /// Call it as soon as the channel's `send` has answered with the number, before the events of that call are heard.
    /// After `AllocError` (7) nothing is noted.
    pub fn note(&mut self, number: u64, ticket: u64) -> Result<(), AllocError>
        ensures ok { OnOk result (self.new ≡ noted number ticket self.old) }
        ensures err { OnErr result (self.new ≡ self.old) }
    {
        self.followed.note(number, ticket)
    }

    /// Whether there are answers to take.
    pub fn has_answers(&self) -> bool
        ensures { result ≡ not (length self.now.answers == 0) }
    {
        !self.answers.is_empty()
    }

    /// Takes all answers, the oldest first.
    pub fn take_answers(&mut self) -> Vec<Answer>
        ensures answers { result.items ≡ self.old.answers }
        ensures rest { self.new ≡ record self.old { answers = [] } }
    {
        replace(&mut self.answers, Vec::new(self.alloc))
    }

    /// What happened next. Events of other members leave it as it is.
    /// After `AllocError` (7) it is as before, and may be told the same event again.
    pub fn hear(&mut self, event: &Event) -> Result<(), AllocError>
        ensures ok { OnOk result (self.new ≡ heard self.old event.now) }
        ensures err { OnErr result (self.new ≡ self.old) }
    {
        let own = self.followed.own();
        match event {
            Event::Delivered(delivery) if delivery.member == own => self.deliver(delivery),
            Event::Installed(install) if install.get().member == own => self.install(install.get()),
            _ => Ok(()),
        }
    }

    // Its member delivered a message.
    fn deliver(&mut self, delivery: &Delivery) -> Result<(), AllocError>
        ensures ok { OnOk result (self.new ≡ delivered delivery.now self.old) }
        ensures err { OnErr result (self.new ≡ self.old) }
    {
        let payload = delivery.message.payload.as_slice();
        let outcome = self.followed.copy().outcome(self.alloc, payload)?;
        self.answers.reserve(1)?;
        if let Some(ticket) = self.followed.deliver(delivery)? {
            let fate = Fate::Delivered(delivery.view, self.followed.place(), outcome);
            self.answers.push_reserved(Answer { ticket, fate });
        }
        Ok(())
    }

    // Its member installed a view.
    fn install(&mut self, install: &Install) -> Result<(), AllocError>
        ensures ok { OnOk result (self.new ≡ installed install.now self.old) }
        ensures err { OnErr result (self.new ≡ self.old) }
    {
        self.answers.reserve(self.followed.waits())?;
        let waiting = self.followed.install(install)?;
        hand_back(waiting.as_slice(), &mut self.answers);
        Ok(())
    }
}
