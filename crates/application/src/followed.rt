ghost use Rattle.std.specs.Prelude.{◌≡◌, length, IfOk, OnOk, OnErr};
ghost use Rattle.application.specs.Followed.{after_delivery, after_install, due, nothing_followed, noting};

use crate::{Replica, Waiting, take_ticket};
use address::{Address, ViewId};
use std::alloc::{AllocError, Global};
use std::marker::Model;
use std::mem::replace;
use trace_props::{Delivery, Install};

/// What a node knows by the events of its member: the member's view, how many messages it delivered there, a copy of the state at that place, and
/// which ticket waits for which of its own messages.
pub struct FollowedMember<R: Replica> {
    alloc: Global,
    own: Address,
    view: Option<ViewId>,
    place: u64,
    copy: R,
    waiting: Vec<Waiting>,
}

impl<R: Replica> Drop for FollowedMember<R> {
    fn drop(self) {
        let FollowedMember {
            alloc: _,
            own: _,
            view: _,
            place: _,
            copy: _,
            waiting: _,
        } = self;
    }
}

impl<R: Replica> Model for FollowedMember<R> {
    ghost use Rattle.application.specs.Followed.{Followed};

    ghost Value = { Followed R };

    ghost view = { λ m. record { own = m.own; view = m.view; place = m.place; copy = m.copy; waiting = m.waiting.items } };
}

impl<R: Replica> FollowedMember<R> {
    /// A member to which nothing happened yet. `AllocError` (7) without memory.
    pub fn new(alloc: Global, own: Address) -> Result<FollowedMember<R>, AllocError>
        ensures { IfOk result (λ f. f ≡ nothing_followed R.meaning own) }
    {
        Ok(FollowedMember {
            alloc,
            own,
            view: None,
            place: 0,
            copy: R::opening(alloc)?,
            waiting: Vec::new(alloc),
        })
    }

    /// The member's address.
    pub fn own(&self) -> Address
        ensures { result ≡ self.now.own }
    {
        self.own
    }

    /// The view that the member installed last; `None` before the first.
    pub fn view(&self) -> Option<ViewId>
        ensures { result ≡ self.now.view }
    {
        self.view
    }

    /// How many messages the member delivered in this view.
    pub fn place(&self) -> u64
        ensures { result ≡ self.now.place }
    {
        self.place
    }

    /// The state after all that the member delivered. Other members may have delivered more, or less.
    pub fn copy(&self) -> &R
        ensures { result.now ≡ self.now.copy }
    {
        &self.copy
    }

    /// How many tickets wait for messages of the member.
    pub fn waits(&self) -> usize
        ensures { result ≡ length self.now.waiting }
    {
        self.waiting.len()
    }

    /// A message of this number was sent in the view for this ticket. After `AllocError` (7) nothing is noted.
    pub fn note(&mut self, number: u64, ticket: u64) -> Result<(), AllocError>
        ensures ok { OnOk result (self.new ≡ noting number ticket self.old) }
        ensures err { OnErr result (self.new ≡ self.old) }
    {
        self.waiting.push(Waiting { number, ticket })?;
        Ok(())
    }

    /// The member delivered a message. The result is the ticket that waited for it, if one did.
    /// After `AllocError` (7) nothing has changed.
    pub fn deliver(&mut self, delivery: &Delivery) -> Result<Option<u64>, AllocError>
        ensures ok { OnOk result (self.new ≡ after_delivery R.meaning delivery.now self.old) }
        ensures ticket { IfOk result (λ ticket. ticket ≡ due delivery.now self.old) }
        ensures err { OnErr result (self.new ≡ self.old) }
    {
        let message = &delivery.message;
        self.copy.apply(message.sender, message.payload.as_slice())?;
        self.place = self.place.saturating_add(1);
        if message.sender == self.own {
            return Ok(take_ticket(&mut self.waiting, message.number));
        }
        Ok(None)
    }

    /// The member installed a view. The result is all that waited for messages of the view before: those are handed back.
    /// After `AllocError` (7) nothing has changed.
    pub fn install(&mut self, install: &Install) -> Result<Vec<Waiting>, AllocError>
        ensures ok { OnOk result (self.new ≡ after_install R.meaning install.now self.old) }
        ensures waiting { IfOk result (λ waiting. waiting.items ≡ self.old.waiting) }
        ensures err { OnErr result (self.new ≡ self.old) }
    {
        if let Some(state) = &install.given {
            self.copy.restore(state.as_slice())?;
        }
        self.view = Some(install.view.id());
        self.place = 0;
        Ok(replace(&mut self.waiting, Vec::new(self.alloc)))
    }
}
