//! What a desk knows of its node beside what the node keeps.

use crate::history::member_of;
use address::{Address, Node, ViewId};
use std::alloc::{AllocError, Global};
use std::time::Duration;
use tickets::Place;
use trace_props::{Event, Install};
use view::Addresses;

/// What happened at the node so far, and how it stands.
pub(crate) struct Counts {
    alloc: Global,
    own: Address,
    /// The view that its member installed last, and how many messages it delivered there.
    pub(crate) view: Option<ViewId>,
    pub(crate) place: u64,
    pub(crate) members: Addresses,
    /// Since when its member is blocked.
    pub(crate) blocked: Option<Duration>,
    pub(crate) sent: u64,
    pub(crate) delivered: u64,
    pub(crate) views: u64,
    /// The views to which members came that were not in the one before.
    pub(crate) merges: u64,
    /// The members that a view lacked which the one before had: they left, or were suspected.
    pub(crate) lost: u64,
    /// The last incarnation of each node that was in a view.
    pub(crate) seen: Vec<Address>,
    pub(crate) requests: u64,
    /// How many requests were carried out as messages.
    pub(crate) writes: u64,
}

impl Drop for Counts {
    fn drop(self) {
        let Counts {
            alloc: _,
            own: _,
            view: _,
            place: _,
            members: _,
            blocked: _,
            sent: _,
            delivered: _,
            views: _,
            merges: _,
            lost: _,
            seen: _,
            requests: _,
            writes: _,
        } = self;
    }
}

// How many of these members are not among the others.
fn count_missing(members: &[Address], others: &[Address]) -> u64 {
    let mut count = 0u64;
    for member in members {
        if !others.contains(member) {
            count = count.saturating_add(1);
        }
    }
    count
}

impl Counts {
    pub(crate) fn new(alloc: Global, own: Address) -> Counts {
        Counts {
            alloc,
            own,
            view: None,
            place: 0,
            members: Addresses::from_vec(Vec::new(alloc)),
            blocked: None,
            sent: 0,
            delivered: 0,
            views: 0,
            merges: 0,
            lost: 0,
            seen: Vec::new(alloc),
            requests: 0,
            writes: 0,
        }
    }

    /// The place where its member is, if it is in a view.
    pub(crate) fn at(&self) -> Option<Place> {
        let view = self.view?;
        let count = self.place;
        Some(Place { view, count })
    }

    /// Whether a member of a node is in its view.
    pub(crate) fn has_member_at(&self, node: Node) -> bool {
        for member in self.members.as_slice() {
            if member.node() == node {
                return true;
            }
        }
        false
    }

    // Notes the incarnation of a node.
    fn see(&mut self, address: Address) -> Result<(), AllocError> {
        for known in self.seen.iter_mut() {
            if known.node() == address.node() {
                *known = (*known).max(address);
                return Ok(());
            }
        }
        self.seen.push(address)?;
        Ok(())
    }

    // Its member installed a view.
    fn install(&mut self, install: &Install) -> Result<(), AllocError> {
        for member in install.view.members().as_slice() {
            self.see(*member)?;
        }
        let members = install.view.members().copied(self.alloc)?;
        let before = self.members.as_slice();
        let after = members.as_slice();
        if !before.is_empty() {
            let came = count_missing(after, before) > 0;
            self.merges = self.merges.saturating_add(u64::from(came));
            self.lost = self.lost.saturating_add(count_missing(before, after));
        }
        self.members = members;
        self.view = Some(install.view.id());
        self.place = 0;
        self.views = self.views.saturating_add(1);
        self.blocked = None;
        Ok(())
    }

    /// What happened next; events of other members leave it as it is.
    pub(crate) fn hear(&mut self, event: &Event, now: Duration) -> Result<(), AllocError> {
        if member_of(event) != self.own {
            return Ok(());
        }
        match event {
            Event::Sent(_) => self.sent = self.sent.saturating_add(1),
            Event::Delivered(_) => {
                self.delivered = self.delivered.saturating_add(1);
                self.place = self.place.saturating_add(1);
            }
            Event::Blocked(_) => self.blocked = Some(now),
            Event::Installed(install) => return self.install(install.get()),
            _ => (),
        }
        Ok(())
    }

    /// Another member of its node is there now: in no view yet.
    pub(crate) fn begin_again(&mut self, own: Address) {
        self.own = own;
        self.view = None;
        self.place = 0;
        self.members = Addresses::from_vec(Vec::new(self.alloc));
        self.blocked = None;
    }

    /// A request came.
    pub(crate) fn ask(&mut self) {
        self.requests = self.requests.saturating_add(1);
    }

    /// A request was carried out as a message.
    pub(crate) fn write(&mut self) {
        self.writes = self.writes.saturating_add(1);
    }
}
