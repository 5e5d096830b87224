ghost use Rattle.std.specs.Prelude.{◌≡◌, ◌≤◌, true, length, Ok, IfOk, IfSome, OnErr};
ghost use Rattle.udp_net.specs.Logs.{failures_after};
ghost use Rattle.udp_net.specs.Bursts.{passage};
ghost use Rattle.udp_net.specs.declared.lane.Passage.TheVariants.{Lost};

use crate::lane::{Lane, Passage};
use crate::ways::Ways;
use crate::{Fault, HELD_WAIT, Hosts, Neighbour, Net, Settings, TURN, Word};
use address::{Address, Node, ViewId};
use std::alloc::{AllocError, Global};
use std::time::Duration;

/// A net over another one that gives only what comes from the group's own nodes, as one of sealed frames does. It carries words too, and drops packets that would harm the
/// group, as a socket's net does (docs/RUNNER.md, "What a net drops"); but it does not ask where a datagram comes from. A long burst goes in pieces, as that of a socket's net,
/// and what is held back there is not held back twice.
pub struct SievedNet<N: Net> {
    inner: N,
    ways: Ways,
    // The receives of this turn.
    receives: u32,
    // What was lost: for want of memory, or of room among what is held back.
    lost: u64,
}

impl<N: Net> Drop for SievedNet<N> {
    fn drop(self) {
        let SievedNet {
            inner: _,
            ways: _,
            receives: _,
            lost: _,
        } = self;
    }
}

// A turn of the net is over: what was held back for a node goes on, where the next one begins there.
fn go_on<N: Net>(net: &mut N, lane: &mut Lane)
    ensures failed { N.failed net.new ≡ N.failed net.old }
    ensures unsent { N.unsent net.old ≤ N.unsent net.new }
{
    lane.begin();
    for _ in 0..lane.held() {
        let Some(datagram) = lane.next() else {
            return;
        };
        net.send(lane.node(), datagram.as_slice());
    }
}

// What was offered for a node is sent, if it goes at once; answers whether it is lost.
fn pass_on<N: Net>(
    net: &mut N,
    node: Node,
    offered: Result<Passage, AllocError>,
    datagram: &[u8],
) -> bool
    ensures failed { N.failed net.new ≡ N.failed net.old }
    ensures unsent { N.unsent net.old ≤ N.unsent net.new }
    ensures lost { offered ≡ Ok Lost → result ≡ true }
    ensures memory { OnErr offered (result ≡ true) }
{
    match offered {
        Ok(Passage::Goes) => {
            net.send(node, datagram);
            false
        }
        Ok(Passage::Waits | Passage::UnderWay) => false,
        Ok(Passage::Lost) | Err(_) => true,
    }
}

// Sends a datagram to a node, or holds it back; answers whether it is lost.
fn send_on<N: Net>(net: &mut N, lane: &mut Lane, datagram: &[u8]) -> bool
    ensures failed { N.failed net.new ≡ N.failed net.old }
    ensures unsent { N.unsent net.old ≤ N.unsent net.new }
    ensures lost { passage datagram.now lane.old ≡ Lost → result ≡ true }
{
    let offered = lane.offer(datagram);
    let is_lost = pass_on(net, lane.node(), offered, datagram);
    if lane.is_over() {
        go_on(net, lane);
    }
    is_lost
}

impl<N: Net> SievedNet<N> {
    /// A net over another one, for the group and the nodes of the settings.
    pub fn new(alloc: Global, inner: N, settings: &Settings) -> Result<SievedNet<N>, AllocError>
        ensures { IfOk result (λ net. net.inner ≡ inner) }
    {
        Ok(SievedNet {
            inner,
            ways: Ways::new(alloc, settings, &Hosts::local(alloc))?,
            receives: 0,
            lost: 0,
        })
    }

    // Offers a word for a node to the net below.
    fn say_once(&mut self, node: Node, word: &Word)
        ensures failed { N.failed self.new.inner ≡ N.failed self.old.inner }
        ensures unsent { N.unsent self.old.inner ≤ N.unsent self.new.inner }
        ensures lost { self.old.lost ≤ self.new.lost }
    {
        match self.ways.gate.spell(node, word) {
            Some(spelled) => self.inner.send(node, spelled),
            None => self.lost = self.lost.saturating_add(1),
        }
    }

    // Takes the next datagram that is given; none where `TURN` in a row are dropped.
    fn take(&mut self, buffer: &mut [u8]) -> Result<Option<usize>, Fault>
        ensures within { IfOk result (λ count. IfSome count (λ n. n ≤ length buffer.new)) }
        ensures failed { N.failed self.new.inner ≡ failures_after (N.failed self.old.inner) result }
        ensures unsent { N.unsent self.old.inner ≤ N.unsent self.new.inner }
        ensures lost { self.new.lost ≡ self.old.lost }
    {
        for _ in 0..TURN {
            let Some(count) = self.inner.receive(buffer)? else {
                return Ok(None);
            };
            if self.ways.gives(&buffer[..count]) {
                return Ok(Some(count));
            }
        }
        Ok(None)
    }
}

impl<N: Net> Net for SievedNet<N> {
    ghost use Rattle.std.specs.Prelude.{None, ◌+◌, min};

    ghost log = { λ _. None };

    ghost failed = { λ n. N.failed n.inner };

    ghost unsent = { λ n. min (N.unsent n.inner + n.lost) 18446744073709551615 };

    /// It goes to the net below, or is held back.
    fn send(&mut self, node: Node, bytes: &[u8]) {
        let net = &mut self.inner;
        let mut lost = 0u64;
        for lane in self.ways.lanes.as_mut_slice() {
            if lane.node() == node && !lane.postpone(bytes) && send_on(net, lane, bytes) {
                lost = lost.saturating_add(1);
            }
        }
        self.lost = self.lost.saturating_add(lost);
    }

    /// Also the latest ACK for each node goes then, or is held back.
    fn flush(&mut self) {
        let net = &mut self.inner;
        let mut lost = 0u64;
        for lane in self.ways.lanes.as_mut_slice() {
            if !lane.ack().is_empty() {
                let offered = lane.offer_ack();
                if pass_on(net, lane.node(), offered, lane.ack()) {
                    lost = lost.saturating_add(1);
                }
                lane.clear_ack();
            }
        }
        self.lost = self.lost.saturating_add(lost);
        net.flush();
    }

    /// Where a turn ends with it, the next one begins.
    fn receive(&mut self, buffer: &mut [u8]) -> Result<Option<usize>, Fault> {
        let answer = self.take(buffer);
        self.receives = self.receives.saturating_add(1);
        if !matches!(&answer, Ok(Some(_))) || TURN <= self.receives {
            self.receives = 0;
            let net = &mut self.inner;
            for lane in self.ways.lanes.as_mut_slice() {
                go_on(net, lane);
            }
            net.flush();
        }
        answer
    }

    /// Where something is held back, no longer than `HELD_WAIT` milliseconds.
    fn wait(&mut self, limit: Duration) {
        let limit = if self.ways.holds_back() {
            limit.min(Duration::from_millis(HELD_WAIT))
        } else {
            limit
        };
        self.inner.wait(limit);
    }

    fn failures(&self) -> u64 {
        self.inner.failures()
    }

    fn unsent(&self) -> u64 {
        self.inner.unsent().saturating_add(self.lost)
    }

    fn pass(&mut self, view: Option<ViewId>, members: &[Address]) {
        self.ways.gate.pass(view, members);
    }

    /// It goes at once, as a datagram of the net below.
    fn say(&mut self, node: Node, word: &Word) {
        self.say_once(node, word);
        if self.ways.gate.speaks_first(node) {
            self.say_once(node, &word.in_first_version());
        }
        self.inner.flush();
    }

    fn words(&self) -> &[Neighbour] {
        self.ways.gate.neighbours.told()
    }

    /// Also words that are spelled wrongly, or are of another group, and what the net below counts.
    fn strange(&self) -> u64 {
        self.inner.strange().saturating_add(self.ways.gate.strange)
    }

    fn sieved(&self) -> u64 {
        self.inner.sieved().saturating_add(self.ways.gate.sieved)
    }
}
