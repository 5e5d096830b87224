//! What a socket's net lets through of the packets that come: a net may lose any datagram (docs/RUNNER.md, "What a net drops").

ghost use Rattle.std.specs.Prelude.{◌≡◌, map, true, false, None, IfOk};
ghost use Rattle.udp_net.specs.Sieve.{unasked, standing, is_outside, counter_of, is_join, is_flush, is_merge, is_absurd, would_merge, asks_too_soon, lets_through, IsOrdinary, hearing, passing};

use crate::asker::{Asker, Stage, ask, is_barred, wait};
use crate::{FIRST_PAUSE, FURTHEST, NodePort};
use address::{Address, ViewId};
use std::alloc::{AllocError, Global};
use std::marker::Model;
use wire_values::{Body, Packet, Roster};

/// What a net knows of its member's view and of those that ask to be let in, and so what it lets through.
#[derive(Drop)]
pub(crate) struct Sieve {
    // The view that the member is in.
    view: Option<Roster>,
    // One for each node of the settings.
    askers: Vec<Asker>,
    // For how many rounds an address is heard that asks.
    silent: u32,
    // Whether words are said here: then no views merge.
    says_words: bool,
}

impl Model for Sieve {
    ghost use Rattle.udp_net.specs.Sieve.{SieveModel};

    ghost Value = { SieveModel };

    ghost view = { λ s. record { view = s.view; askers = s.askers.items; silent = s.silent; says_words = s.says_words } };
}

// Whether the member is in a view, and an address is not in it.
fn is_outside(address: Address, view: &Option<Roster>) -> bool
    ensures { result ≡ is_outside address view.now }
{
    match view {
        Some(view) => !view.members().as_slice().contains(&address),
        None => false,
    }
}

// The greatest counter of a view, a proposal or a BEHIND in a packet; 0 if there is none.
fn counter_of(body: &Body<'_>) -> u64
    ensures { result ≡ counter_of body.now }
{
    match body {
        Body::Join | Body::Redirect(_) | Body::Leave => 0,
        Body::Forward { view, .. }
        | Body::Order { view, .. }
        | Body::Nak { view, .. }
        | Body::Ack { view, .. }
        | Body::Status { view, .. } => view.counter(),
        Body::Flush(proposal) => proposal.id().counter(),
        Body::Behind { proposal, counter } => proposal.counter().max(counter.get()),
        Body::Report { proposal, .. } | Body::State { proposal, .. } => proposal.counter(),
        Body::Install(install) => install.view().id().counter(),
        Body::Merge(view) => view.id().counter(),
    }
}

fn is_join(body: &Body<'_>) -> bool
    ensures { result ≡ is_join body.now }
{
    matches!(body, Body::Join)
}

fn is_flush(body: &Body<'_>) -> bool
    ensures { result ≡ is_flush body.now }
{
    matches!(body, Body::Flush(_))
}

fn is_merge(body: &Body<'_>) -> bool
    ensures { result ≡ is_merge body.now }
{
    matches!(body, Body::Merge(_))
}

// Whether the member is in a view, and a packet's counter is absurdly far ahead of it.
fn is_absurd(view: &Option<Roster>, body: &Body<'_>) -> bool
    ensures { result ≡ is_absurd view.now body.now }
{
    match view {
        Some(view) => counter_of(body) > view.id().counter() + FURTHEST,
        None => false,
    }
}

impl Sieve {
    /// Of these nodes, whose member is in no view. An address that asks to be let in is heard for so many rounds.
    pub(crate) fn new(alloc: Global, nodes: &[NodePort], silent: u16) -> Result<Sieve, AllocError>
        ensures { IfOk result (λ s. s ≡ record { view = None; askers = map (λ n. unasked n.node) nodes.now; silent = silent; says_words = false }) }
    {
        let mut askers = Vec::with_capacity(alloc, nodes.len())?;
        for node in nodes {
            askers.push(Asker {
                node: node.node,
                latest: None,
                stage: Stage::Free,
                next_pause: FIRST_PAUSE,
                calm: 0,
            })?;
        }
        Ok(Sieve {
            view: None,
            askers,
            silent: u32::from(silent),
            says_words: false,
        })
    }

    // Whether a packet would merge views where words are said.
    fn would_merge(&self, packet: &Packet<'_>) -> bool
        ensures { result ≡ would_merge self.now packet.now }
    {
        self.says_words
            && (is_merge(&packet.body)
                || (is_flush(&packet.body) && is_outside(packet.source, &self.view)))
    }

    // Whether a packet asks for a way in for an address that is not heard now.
    fn asks_too_soon(&self, packet: &Packet<'_>) -> bool
        ensures { result ≡ asks_too_soon self.now packet.now }
    {
        (is_join(&packet.body) || is_merge(&packet.body))
            && is_outside(packet.source, &self.view)
            && is_barred(packet.source, self.askers.as_slice())
    }

    /// Whether a packet goes through.
    pub(crate) fn lets_through(&self, packet: &Packet<'_>) -> bool
        ensures exact { result ≡ lets_through self.now packet.now }
        // The messages of a view, and what flushes it for its members, always go through.
        ensures ordinary { IsOrdinary self.now packet.now → result ≡ true }
    {
        !is_absurd(&self.view, &packet.body)
            && !self.would_merge(packet)
            && !self.asks_too_soon(packet)
    }

    /// A packet went through.
    pub(crate) fn hear(&mut self, packet: &Packet<'_>)
        ensures { self.new ≡ hearing packet.now self.old }
    {
        if is_join(&packet.body) && is_outside(packet.source, &self.view) {
            ask(self.silent, packet.source, self.askers.as_mut_slice());
        }
    }

    /// A round is over, and the member is in this view now, with these members, or in none.
    pub(crate) fn pass(&mut self, view: Option<ViewId>, members: &[Address])
        ensures { self.new ≡ passing (standing view members.now) self.old }
    {
        self.view = match view {
            Some(id) => Roster::new(id, members),
            None => None,
        };
        wait(&self.view, self.askers.as_mut_slice());
    }

    /// Words are said here from now on.
    pub(crate) fn say_words(&mut self)
        ensures { self.new ≡ record self.old { says_words = true } }
    {
        self.says_words = true;
    }
}
