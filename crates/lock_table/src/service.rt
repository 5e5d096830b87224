ghost use Rattle.std.specs.Prelude.{◌≡◌, ◌==◌, [], not, length, IfOk, OnOk, OnErr};
ghost use Rattle.std.specs.List.{list_any};
ghost use Rattle.lock_table.specs.Keeping.{delivered, heard, installed, kept_of, noted, nothing_heard};

use crate::answer::{hand_back, tell_late};
use crate::own_message::early_in;
use crate::{Answer, LockTable, Queued};
use address::{Address, ViewId};
use application::FollowedMember;
use std::alloc::{AllocError, Global};
use std::marker::Model;
use std::mem::replace;
use trace_props::{Delivery, Event, Install};

/// What a node knows by the events of its member, with a copy of the table of locks; which ticket waits for which lock; and the answers that nobody has
/// taken.
pub struct LockService {
    alloc: Global,
    followed: FollowedMember<LockTable>,
    queued: Vec<Queued>,
    answers: Vec<Answer>,
}

impl Drop for LockService {
    fn drop(self) {
        let LockService {
            alloc: _,
            followed: _,
            queued: _,
            answers: _,
        } = self;
    }
}

impl Model for LockService {
    ghost use Rattle.lock_table.specs.Keeping.{Keeping};

    ghost Value = { Keeping };

    ghost view = { λ m. record { followed = m.followed; queued = m.queued.items; answers = m.answers.items } };
}

impl LockService {
    /// The service of a member to which nothing happened yet. `AllocError` (7) without memory.
    pub fn new(alloc: Global, own: Address) -> Result<LockService, AllocError>
        ensures { IfOk result (λ s. s ≡ nothing_heard own) }
    {
        Ok(LockService {
            alloc,
            followed: FollowedMember::new(alloc, own)?,
            queued: Vec::new(alloc),
            answers: Vec::new(alloc),
        })
    }

    /// The table after all that was heard. Other members may have delivered more, or less.
    pub fn copy(&self) -> &LockTable
        ensures { result.now ≡ self.now.followed.copy }
    {
        self.followed.copy()
    }

    /// The view that its member installed last; `None` before the first.
    pub fn view(&self) -> Option<ViewId>
        ensures { result ≡ self.now.followed.view }
    {
        self.followed.view()
    }

    /// How many messages its member delivered in this view.
    pub fn place(&self) -> u64
        ensures { result ≡ self.now.followed.place }
    {
        self.followed.place()
    }

    /// How many tickets wait for a message of its member.
    pub fn waits(&self) -> usize
        ensures { result ≡ length self.now.followed.waiting }
    {
        self.followed.waits()
    }

    /// How many tickets wait for a lock.
    pub fn queued(&self) -> usize
        ensures { result ≡ length self.now.queued }
    {
        self.queued.len()
    }

    /// Whether a ticket waits for a lock.
    pub fn is_queued(&self, ticket: u64) -> bool
        ensures { result ≡ list_any (λ q. q.ticket == ticket) self.now.queued }
    {
        for waits in self.queued.iter() {
            if waits.ticket == ticket {
                return true;
            }
        }
        false
    }

    /// A message of this number was sent in the view for this ticket: its fate will be the ticket's answer.
    /// Call it as soon as the channel's `send` has answered with the number, before the events of that call are heard.
    /// After `AllocError` (7) nothing is noted.
    pub fn note(&mut self, number: u64, ticket: u64) -> Result<(), AllocError>
        ensures ok { OnOk result (self.new ≡ noted number ticket self.old) }
        ensures err { OnErr result (self.new ≡ self.old) }
    {
        self.followed.note(number, ticket)
    }

    /// Only tickets of this list wait for locks from now on: nobody asks any more what becomes of the others. Its member waits for their locks all the same.
    pub fn keep(&mut self, tickets: &[u64])
        ensures { self.new ≡ kept_of tickets.now self.old }
    {
        self.queued.retain(|waits| tickets.contains(&waits.ticket));
    }

    /// Whether there are answers to take.
    pub fn has_answers(&self) -> bool
        ensures { result ≡ not (length self.now.answers == 0) }
    {
        !self.answers.is_empty()
    }

    /// Takes all answers, the oldest first.
    pub fn take_answers(&mut self) -> Vec<Answer>
        ensures answers { result.items ≡ self.old.answers }
        ensures rest { self.new ≡ record self.old { answers = [] } }
    {
        replace(&mut self.answers, Vec::new(self.alloc))
    }

    /// What happened next. Events of other members leave it as it is.
    /// After `AllocError` (7) it is as before, and may be told the same event again.
    pub fn hear(&mut self, event: &Event) -> Result<(), AllocError>
        ensures ok { OnOk result (self.new ≡ heard self.old event.now) }
        ensures err { OnErr result (self.new ≡ self.old) }
    {
        let own = self.followed.own();
        match event {
            Event::Delivered(delivery) if delivery.member == own => self.deliver(delivery),
            Event::Installed(install) if install.get().member == own => self.install(install.get()),
            _ => Ok(()),
        }
    }

    // Its member delivered a message.
    fn deliver(&mut self, delivery: &Delivery) -> Result<(), AllocError>
        ensures ok { OnOk result (self.new ≡ delivered delivery.now self.old) }
        ensures err { OnErr result (self.new ≡ self.old) }
    {
        let own = self.followed.own();
        let payload = delivery.message.payload.as_slice();
        let early = early_in(self.alloc, &own, self.followed.copy(), payload)?;
        self.queued.reserve(1)?;
        let room = self.queued.len().saturating_add(1);
        self.answers.reserve(room)?;
        let ticket = self.followed.deliver(delivery)?;
        tell_late(
            &self.followed,
            delivery.view,
            &mut self.queued,
            &mut self.answers,
        );
        if let Some(ticket) = ticket {
            early.settle(
                &self.followed,
                ticket,
                delivery.view,
                &mut self.queued,
                &mut self.answers,
            );
        }
        Ok(())
    }

    // Its member installed a view.
    fn install(&mut self, install: &Install) -> Result<(), AllocError>
        ensures ok { OnOk result (self.new ≡ installed install.now self.old) }
        ensures err { OnErr result (self.new ≡ self.old) }
    {
        let view = install.view.id();
        let room = self.followed.waits().saturating_add(self.queued.len());
        self.answers.reserve(room)?;
        let waiting = self.followed.install(install)?;
        hand_back(view, waiting.as_slice(), &mut self.answers);
        tell_late(&self.followed, view, &mut self.queued, &mut self.answers);
        Ok(())
    }
}
