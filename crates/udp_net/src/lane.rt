ghost use Rattle.std.specs.Prelude.{◌≡◌, [], OnErr, IfOk, OnOk, IsTrue, length, nat_eq};
ghost use Rattle.udp_net.specs.Acks.{is_ack};
ghost use Rattle.udp_net.specs.Bursts.{ack_passage, after_ack, opened, passes, postponed, has_just_gone, going, passage, offered, after_offer, begun, GoesOn};
ghost use Rattle.udp_net.specs.Hosts.{IsSameHost};
ghost use Rattle.udp_net.specs.Strangers.{IsFrom, IsPlainlyFrom};
ghost use Rattle.std.specs.Net.Socket.{socket_ip, socket_port};

use crate::acks::{LatestAck, is_ack};
use crate::held_back::HeldBack;
use crate::under_way::{GoneChunks, chunk_in};
use crate::{BURST, NodePort, OFFERS, PATIENCE, SHORT};
use address::{Bytes, Node};
use std::alloc::{AllocError, Global};
use std::marker::Model;
use std::net::{IpAddr, SocketAddr};

/// What becomes of a datagram that is offered for a node.
#[derive(Clone, Copy)]
pub(crate) enum Passage {
    /// It goes at once, and must be sent then.
    Goes,
    /// It waits with those that are held back.
    Waits,
    /// It does not go again: a chunk of a state that is under way.
    UnderWay,
    /// It is lost: there is no room for it.
    Lost,
}

/// The way to a node: its port and its host, how many bytes may be sent there and be offered for it yet in this turn, for how many turns of the net it is waited for before its next one,
/// what is held back, which of its turns this is, and the chunks of states that went there last.
pub(crate) struct Lane {
    port: NodePort,
    host: IpAddr,
    to_send: usize,
    to_offer: usize,
    patience: u32,
    held: HeldBack,
    turn: u64,
    gone: GoneChunks,
    ack: LatestAck,
}

impl Drop for Lane {
    fn drop(self) {
        let Lane {
            port: _,
            host: _,
            to_send: _,
            to_offer: _,
            patience: _,
            held: _,
            turn: _,
            gone: _,
            ack: _,
        } = self;
    }
}

impl Model for Lane {
    ghost use Rattle.udp_net.specs.Bursts.{LaneModel};

    ghost Value = { LaneModel };

    ghost view = { λ l. record { port = l.port; host = l.host; to_send = l.to_send; to_offer = l.to_offer; patience = l.patience; held = l.held; turn = l.turn; gone = l.gone; ack = l.ack } };
}

impl Lane {
    // The way to a node at a host, on which nothing went.
    pub(crate) fn new(alloc: Global, port: NodePort, host: IpAddr) -> Result<Lane, AllocError>
        ensures { IfOk result (λ lane. lane ≡ opened port host) }
    {
        Ok(Lane {
            port,
            host,
            to_send: BURST,
            to_offer: OFFERS,
            patience: 0,
            held: HeldBack::new(alloc),
            turn: 0,
            gone: GoneChunks::new(alloc)?,
            ack: LatestAck::new(alloc)?,
        })
    }

    // The node.
    pub(crate) fn node(&self) -> Node
        ensures { result ≡ self.now.port.node }
    {
        self.port.node
    }

    // Where the node is reached.
    pub(crate) fn address(&self) -> SocketAddr
        ensures host { socket_ip result ≡ self.now.host }
        ensures port { socket_port result ≡ self.now.port.port }
    {
        SocketAddr::new(self.host, self.port.port)
    }

    // Whether a datagram from an address comes from the node: an IPv4 address and its form in IPv6 name the same host.
    pub(crate) fn comes_from(&self, from: SocketAddr) -> bool
        ensures same { (socket_ip from ≡ self.now.host) → (socket_port from ≡ self.now.port.port) → IsTrue result }
        ensures only { IsTrue result → IsSameHost (socket_ip from) self.now.host × (socket_port from ≡ self.now.port.port) }
    {
        let ip = from.ip();
        let (first, second) = (ip.to_canonical(), self.host.to_canonical());
        from.port() == self.port.port && (ip == self.host || first == second)
    }

    // Whether it leads to a node, and a datagram that names the node is from it: it comes from there, if it is known where it comes from.
    pub(crate) fn is_way_of(&self, node: Node, from: Option<SocketAddr>) -> bool
        ensures same { IsPlainlyFrom node from self.now → IsTrue result }
        ensures only { IsTrue result → IsFrom node from self.now }
    {
        match from {
            Some(from) => self.port.node == node && self.comes_from(from),
            None => self.port.node == node,
        }
    }

    // How many datagrams are held back.
    pub(crate) fn held(&self) -> usize
        ensures { result ≡ length self.now.held }
    {
        self.held.len()
    }

    // Whether what is offered goes at once: nothing waits, and some of the bytes that may be sent are left.
    fn passes(&self) -> bool
        ensures { result ≡ passes self.now }
    {
        self.held.len() == 0 && 1 <= self.to_send
    }

    // Whether a datagram is a chunk of a state that went there within the last turns.
    fn has_just_gone(&self, datagram: &[u8]) -> bool
        ensures { result ≡ has_just_gone datagram.now self.now }
    {
        match chunk_in(datagram) {
            Some(chunk) => self.gone.has(chunk, self.turn),
            None => false,
        }
    }

    // A datagram goes in this turn.
    fn go(&mut self, datagram: &[u8])
        ensures { self.new ≡ going datagram.now self.old }
    {
        self.to_send = self.to_send.saturating_sub(datagram.len());
        if datagram.len() <= SHORT {
            return;
        }
        if let Some(chunk) = chunk_in(datagram) {
            self.gone.note(chunk, self.turn);
        }
    }

    // What becomes of a datagram that is offered; an error for want of memory drops it.
    pub(crate) fn offer(&mut self, datagram: &[u8]) -> Result<Passage, AllocError>
        ensures ok { IfOk result (λ p. p ≡ passage datagram.now self.old) }
        ensures after { OnOk result (self.new ≡ after_offer datagram.now (offered (length datagram.now) self.old)) }
        ensures err { OnErr result (self.new ≡ offered (length datagram.now) self.old) }
    {
        self.to_offer = self.to_offer.saturating_sub(datagram.len());
        if SHORT < datagram.len() && self.has_just_gone(datagram) {
            return Ok(Passage::UnderWay);
        }
        if self.passes() {
            self.go(datagram);
            return Ok(Passage::Goes);
        }
        let waits = self.held.hold(datagram)?;
        Ok(if waits { Passage::Waits } else { Passage::Lost })
    }

    // An ACK waits until the next flush, in place of one that waits. Answers whether the datagram is one.
    pub(crate) fn postpone(&mut self, datagram: &[u8]) -> bool
        ensures is { result ≡ is_ack datagram.now }
        ensures after { self.new ≡ postponed datagram.now self.old }
    {
        if !is_ack(datagram) {
            return false;
        }
        self.ack.put(datagram);
        true
    }

    // The ACK that waits for the flush; empty, if none does.
    pub(crate) fn ack(&self) -> &[u8]
        ensures { result.now ≡ self.now.ack }
    {
        self.ack.as_slice()
    }

    // What becomes of the ACK that waits, now that it is offered; an error for want of memory drops it.
    pub(crate) fn offer_ack(&mut self) -> Result<Passage, AllocError>
        ensures ok { IfOk result (λ p. p ≡ ack_passage self.old) }
        ensures after { OnOk result (self.new ≡ after_ack (offered (length self.old.ack) self.old)) }
        ensures err { OnErr result (self.new ≡ offered (length self.old.ack) self.old) }
    {
        let length = self.ack.as_slice().len();
        self.to_offer = self.to_offer.saturating_sub(length);
        if self.passes() {
            self.to_send = self.to_send.saturating_sub(length);
            return Ok(Passage::Goes);
        }
        let waits = self.held.hold(self.ack.as_slice())?;
        Ok(if waits { Passage::Waits } else { Passage::Lost })
    }

    // The ACK that waited is offered.
    pub(crate) fn clear_ack(&mut self)
        ensures { self.new ≡ record self.old { ack = [] } }
    {
        self.ack.clear();
    }

    // Whether so much was offered in this turn that it ends.
    pub(crate) fn is_over(&self) -> bool
        ensures { result ≡ nat_eq self.now.to_offer 0 }
    {
        self.to_offer == 0
    }

    // A datagram came from the node.
    pub(crate) fn hear(&mut self)
        ensures { self.new ≡ record self.old { patience = 0 } }
    {
        self.patience = 0;
    }

    // A turn of the net is over: the node's next turn begins, unless it has to be waited for.
    pub(crate) fn begin(&mut self)
        ensures { self.new ≡ begun self.old }
    {
        self.to_offer = OFFERS;
        if self.patience > 0 {
            self.patience -= 1;
            return;
        }
        self.patience = PATIENCE;
        self.to_send = BURST;
        self.turn = self.turn.saturating_add(1);
    }

    // Takes out the next of those that are held back, if one goes in this turn: it must be sent then.
    pub(crate) fn next(&mut self) -> Option<Bytes>
        ensures { GoesOn self.old result self.new }
    {
        if self.to_send == 0 {
            return None;
        }
        let datagram = self.held.next()?;
        self.go(datagram.as_slice());
        Some(datagram)
    }
}
