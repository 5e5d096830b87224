//! The ways to the nodes of a group, and what comes on them (docs/RUNNER.md, "What a net drops").

ghost use Rattle.std.specs.Prelude.{◌≡◌, ◌≢◌, true, map, IfOk, IsTrue};
ghost use Rattle.udp_net.specs.Bursts.{opened};
ghost use Rattle.udp_net.specs.Hosts.{host_of};
ghost use Rattle.udp_net.specs.Sieve.{lets_through, IsOrdinary};
ghost use Rattle.udp_net.specs.Strangers.{AnyLane, ComesFrom, ComesPlainlyFrom, IsFrom, IsPlainlyFrom};
ghost use Rattle.udp_net.specs.Words.{begins_as_word};
ghost use Rattle.udp_net.specs.declared.gate.Verdict.TheVariants.{Given};
ghost use Rattle.wire_values.specs.declared.packet.Packet.{Packet as PacketValue};
ghost use Rattle.wire.specs.Packets.{Spells, packet_of};

use crate::gate::{Gate, Verdict};
use crate::lane::Lane;
use crate::word::is_word;
use crate::{Hosts, Settings, Word};
use address::Node;
use std::alloc::{AllocError, Global};
use std::net::SocketAddr;
use wire::{Packet, decode};

/// The ways to the nodes of a group, each at its host, and what lets through what comes from them.
pub(crate) struct Ways {
    pub(crate) lanes: Vec<Lane>,
    pub(crate) gate: Gate,
}

impl Drop for Ways {
    fn drop(self) {
        let Ways { lanes: _, gate: _ } = self;
    }
}

// Whether one of these ways leads to a node, and a datagram is from it: it comes from where the way leads, if that is known.
fn is_on_a_lane(lanes: &[Lane], node: Node, from: Option<SocketAddr>) -> bool
    ensures same { AnyLane (IsPlainlyFrom node from) lanes.now → IsTrue result }
    ensures only { IsTrue result → AnyLane (IsFrom node from) lanes.now }
{
    let Some((first, rest)) = lanes.split_first() else {
        return false;
    };
    first.is_way_of(node, from) || is_on_a_lane(rest, node, from)
}

/// Whether some node is reached at an address.
pub(crate) fn is_reached_at(lanes: &[Lane], from: SocketAddr) -> bool
    ensures same { AnyLane (ComesPlainlyFrom from) lanes.now → IsTrue result }
    ensures only { IsTrue result → AnyLane (ComesFrom from) lanes.now }
{
    let Some((first, rest)) = lanes.split_first() else {
        return false;
    };
    first.comes_from(from) || is_reached_at(rest, from)
}

impl Ways {
    /// To the nodes of the settings at these hosts, for their group.
    pub(crate) fn new(alloc: Global, settings: &Settings, hosts: &Hosts) -> Result<Ways, AllocError>
        ensures { IfOk result (λ w. w.lanes.items ≡ map (λ n. opened n (host_of n.node hosts.now.peers)) settings.now.nodes) }
    {
        let nodes = settings.nodes();
        let mut lanes = Vec::with_capacity(alloc, nodes.len())?;
        for node in nodes {
            lanes.push(Lane::new(alloc, *node, hosts.host_of(node.node))?)?;
        }
        Ok(Ways {
            lanes,
            gate: Gate::new(alloc, settings)?,
        })
    }

    /// Whether a datagram is held back for some node.
    pub(crate) fn holds_back(&self) -> bool {
        for lane in self.lanes.as_slice() {
            if lane.held() > 0 {
                return true;
            }
        }
        false
    }

    /// A datagram came from an address: the node that is reached there has rounds.
    pub(crate) fn hear_from(&mut self, from: SocketAddr) {
        for lane in self.lanes.as_mut_slice() {
            if lane.comes_from(from) {
                lane.hear();
            }
        }
    }

    // A datagram that names a node is from it: it has rounds, also where its address is translated on the way.
    fn hear(&mut self, node: Node)
        ensures { self.new.gate ≡ self.old.gate }
    {
        for lane in self.lanes.as_mut_slice() {
            if lane.node() == node {
                lane.hear();
            }
        }
    }

    // What becomes of a datagram that begins as a word: it counts if it spells one of the group, and is from its node.
    fn hear_word(&mut self, datagram: &[u8], from: Option<SocketAddr>) -> Verdict
        ensures { result ≢ Given }
    {
        let Ok(word) = Word::read(datagram, &self.gate.group.lent()) else {
            return Verdict::Strange;
        };
        if !is_on_a_lane(self.lanes.as_slice(), word.source.node(), from) {
            return Verdict::Strange;
        }
        self.hear(word.source.node());
        self.gate.neighbours.hear(&word);
        Verdict::Told
    }

    // What becomes of a packet.
    fn judge_packet(&mut self, packet: &Packet<'_>, from: Option<SocketAddr>) -> Verdict
        ensures given { result ≡ Given → AnyLane (IsFrom packet.now.source.node from) self.old.lanes.items × (lets_through self.old.gate.sieve packet.now ≡ true) }
        ensures ordinary { IsOrdinary self.old.gate.sieve packet.now → AnyLane (IsPlainlyFrom packet.now.source.node from) self.old.lanes.items → result ≡ Given }
    {
        if !is_on_a_lane(self.lanes.as_slice(), packet.source.node(), from) {
            return Verdict::Strange;
        }
        self.hear(packet.source.node());
        if !self.gate.sieve.lets_through(packet) {
            return Verdict::Sieved;
        }
        self.gate.sieve.hear(packet);
        Verdict::Given
    }

    /// What becomes of a datagram that comes from an address, or may come from anywhere: what spells no packet is given, unless it is a word.
    pub(crate) fn judge(&mut self, datagram: &[u8], from: Option<SocketAddr>) -> Verdict
        // No word is given; and a packet only if it comes from the node that it names, and the sieve lets it through.
        ensures word { begins_as_word datagram.now ≡ true → result ≢ Given }
        ensures given { result ≡ Given → IfOk (packet_of datagram.now) (λ p. AnyLane (IsFrom p.source.node from) self.old.lanes.items × (lets_through self.old.gate.sieve p ≡ true)) }
        // The messages of a view, and what flushes it for its members, are always given, if they come from the node that they name.
        ensures ordinary { (p : PacketValue) → Spells p datagram.now → IsOrdinary self.old.gate.sieve p → AnyLane (IsPlainlyFrom p.source.node from) self.old.lanes.items → result ≡ Given }
    {
        if is_word(datagram) {
            return self.hear_word(datagram, from);
        }
        match decode(datagram) {
            Ok(packet) => self.judge_packet(&packet, from),
            Err(_) => Verdict::Given,
        }
    }

    /// Whether a datagram is given that may come from anywhere; it is counted if it is dropped.
    pub(crate) fn gives(&mut self, datagram: &[u8]) -> bool {
        let verdict = self.judge(datagram, None);
        self.gate.count(verdict);
        verdict == Verdict::Given
    }
}
