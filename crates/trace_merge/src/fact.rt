//! What an event shows, and what has to be shown before it.

ghost use Rattle.std.specs.Prelude.{◌≡◌, [], ◌∷◌, find};
ghost use Rattle.std.specs.HashSet.{contains};
ghost use Rattle.trace_merge.specs.Facts.{same_fact, delivered, shown_by, before_delivery, before_install, waits_for, shows, is_shown};

use address::{Address, ViewId};
use std::collections::HashSet;
use trace_props::{Delivery, Event, Install};

/// A message of a view, by its sender and its number.
#[derive(Clone, Copy, PartialEq, Eq, Hash)]
pub struct MessageKey {
    pub view: ViewId,
    pub sender: Address,
    pub number: u64,
}

/// What an event of one process shows, and events of others may wait for.
#[derive(Clone, Copy, PartialEq, Eq, Hash)]
pub enum Fact {
    /// A message was sent.
    Sent(MessageKey),
    /// A member was delivered a message.
    Delivered(Address, MessageKey),
    /// A member installed a view.
    Installed(Address, ViewId),
}

// The message that is delivered.
fn delivered(delivery: &Delivery) -> MessageKey
    ensures { result ≡ delivered delivery.now }
{
    MessageKey {
        view: delivery.view,
        sender: delivery.message.sender,
        number: delivery.message.number,
    }
}

/// What an event shows.
pub(crate) fn shown_by(event: &Event) -> Option<Fact>
    ensures { result ≡ shown_by event.now }
{
    match event {
        Event::Sent(sending) => Some(Fact::Sent(MessageKey {
            view: sending.view,
            sender: sending.member,
            number: sending.message.number,
        })),
        Event::Delivered(delivery) => {
            Some(Fact::Delivered(delivery.member, delivered(delivery)))
        }
        Event::Installed(install) => {
            let install = install.get();
            Some(Fact::Installed(install.member, install.view.id()))
        }
        _ => None,
    }
}

// Whether an event shows something.
fn shows(event: &Event, fact: &Fact) -> bool
    ensures { result ≡ shows fact.now event.now }
{
    match shown_by(event) {
        Some(shown) => shown == *fact,
        None => false,
    }
}

// This, if it is awaited.
fn if_awaited(fact: Fact, awaited: &HashSet<Fact>) -> Option<Fact>
    ensures { result ≡ find (contains same_fact awaited.now) (fact ∷ []) }
{
    if awaited.contains(&fact) {
        Some(fact)
    } else {
        None
    }
}

// What is awaited, of what comes before a delivery: its message's send, or, unless it is the coordinator's own, that one's delivery.
fn awaited_by_delivery(delivery: &Delivery, awaited: &HashSet<Fact>) -> Option<Fact>
    ensures { result ≡ find (contains same_fact awaited.now) (before_delivery delivery.now) }
{
    let send = if_awaited(Fact::Sent(delivered(delivery)), awaited);
    if send.is_some() {
        return send;
    }
    let coordinator = delivery.view.creator();
    if delivery.member == coordinator {
        return None;
    }
    if_awaited(Fact::Delivered(coordinator, delivered(delivery)), awaited)
}

// What is awaited, of what comes before an install: unless it is the coordinator's own, that one's install.
fn awaited_by_install(install: &Install, awaited: &HashSet<Fact>) -> Option<Fact>
    ensures { result ≡ find (contains same_fact awaited.now) (before_install install.now) }
{
    let view = install.view.id();
    if install.member == view.creator() {
        return None;
    }
    if_awaited(Fact::Installed(view.creator(), view), awaited)
}

/// What an event waits for, of what is awaited.
pub(crate) fn awaited_by(event: &Event, awaited: &HashSet<Fact>) -> Option<Fact>
    ensures { result ≡ find (contains same_fact awaited.now) (waits_for event.now) }
{
    match event {
        Event::Delivered(delivery) => awaited_by_delivery(delivery, awaited),
        Event::Installed(install) => awaited_by_install(install.get(), awaited),
        _ => None,
    }
}

/// Whether one of some events shows something.
pub(crate) fn is_shown(events: &[Event], fact: &Fact) -> bool
    ensures { result ≡ is_shown events.now fact.now }
{
    for event in events {
        if shows(event, fact) {
            return true;
        }
    }
    false
}
