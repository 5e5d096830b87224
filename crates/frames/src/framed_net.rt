ghost use Rattle.std.specs.Prelude.{◌≡◌, ◌≤◌, ◌+◌, ◌*◌, ◌∷◌, ℕ, List, [], length, min, OnOk, IfOk, IfSome};
ghost use Rattle.std.specs.List.{AllByRecursion};
ghost use Rattle.frames.specs.Arrivals.{StandsIn};
ghost use Rattle.frames.specs.Sendings.{Adds, AreSameWays, IsFrameOf, IsLongOn, KeepLongs, Sends, WaitOf};
ghost use Rattle.frames.specs.Nets.{GivesArrived, Grows, HasFlushed, HasReceived, HasSent, IsAnswer, IsFresh, IsOver, IsSameNode};
ghost use Rattle.frames.specs.Carried.{Carries};
ghost use Rattle.frames.specs.Gathered.{Gathers, offering_each};
ghost use Rattle.frames.specs.declared.outlet.Seal.{Seal as SealValue};
ghost use Rattle.udp_net.specs.Logs.{failures_after, Lists};

use crate::content::shared_front;
use crate::hmac::Key;
use crate::opener::Opener;
use crate::outlet::{Outlet, Seal};
use crate::several::Variant;
use crate::{BOOT, CONTENT, FRAME, MOST_ROWS, OPENED, ROW};
use address::Node;
use std::alloc::{AllocError, Global};
use std::marker::Model;
use std::time::Duration;
use udp_net::{Fault, Net, NodePort};

/// A net over another one, whose datagrams are frames (docs/WIRE.md, "Frames"). Each is sealed with the group's key, so that what somebody sends who has not the key is not given. Small
/// packets for a node wait and go together: with a flush, before a wait, and when no more of them have a place in the frame. What waits for several nodes at a flush, and is the same but
/// for six bytes, goes in one frame that is sealed once. A packet that has no place in one frame goes in pieces, and is given when all of them came; one that was lost may come when the
/// packet is sent again.
pub struct FramedNet<N: Net> {
    alloc: Global,
    inner: N,
    seal: Seal,
    outlets: Vec<Outlet>,
    // How many frames for several nodes went.
    several: u64,
    opener: Opener,
    buffer: Vec<u8>,
    refused: u64,
    lost: u64,
}

impl<N: Net> Drop for FramedNet<N> {
    fn drop(self) {
        let FramedNet {
            alloc: _,
            inner: _,
            seal: _,
            outlets: _,
            several: _,
            opener: _,
            buffer: _,
            refused: _,
            lost: _,
        } = self;
    }
}

impl<N: Net> Model for FramedNet<N> {
    ghost use Rattle.frames.specs.Nets.{FramedModel, Keeps};

    ghost Value = { FramedModel N };

    ghost view = { λ n. record { inner = n.inner; seal = n.seal; outlets = n.outlets.items; opener = n.opener; refused = n.refused; lost = n.lost } };

    ghost invariant = { λ n. Keeps (N.log n.inner) n.seal.key n.opener };
}

// The ways to some nodes.
fn outlets_to(alloc: Global, nodes: &[NodePort]) -> Result<Vec<Outlet>, AllocError>
    ensures { IfOk result (λ o. AllByRecursion IsFresh o.items) }
{
    let mut outlets = Vec::with_capacity(alloc, nodes.len())?;
    for node in nodes {
        outlets.push(Outlet::new(alloc, node.node))?;
    }
    Ok(outlets)
}

// Where a content first differs from one that is as long, among those that wait on some ways.
fn place_in(content: &[u8], outlets: &[Outlet]) -> Option<usize>
    ensures { IfSome result (λ place. place ≤ 255) }
{
    let Some((first, rest)) = outlets.split_first() else {
        return None;
    };
    if first.content().len() == content.len() {
        return Some(shared_front(content, first.content()));
    }
    place_in(content, rest)
}

// The same, if one frame has room for the content and a row for each of these ways.
fn place_for(content: &[u8], outlets: &[Outlet]) -> Option<usize>
    ensures near { IfSome result (λ place. place ≤ 255) }
    ensures count { IfSome result (λ _. length outlets.now ≤ 255) }
    ensures room { IfSome result (λ _. length content.now + 2 + 8 * length outlets.now ≤ 1356) }
{
    if content.is_empty()
        || outlets.len() > MOST_ROWS
        || content.len() + 2 + ROW * outlets.len() > CONTENT
    {
        return None;
    }
    place_in(content, outlets)
}

// Takes what waits on each of some ways, if that is as a content but for six bytes at a place.
fn gather(content: &[u8], place: usize, outlets: &mut [Outlet], variants: &mut Vec<Variant>)
    ensures { Gathers place content.now variants.old.items outlets.old variants.new.items outlets.new }
{
    let Some((first, rest)) = outlets.split_first_mut() else {
        return;
    };
    first.take_variant(content, place, variants);
    gather(content, place, rest, variants)
}

// Offers a frame to each of some nodes.
fn send_each<N: Net>(net: &mut N, variants: &[Variant], frame: &[u8])
    ensures lists { Lists (N.log net.old) (offering_each variants.now frame.now) (N.log net.new) }
    ensures failed { N.failed net.new ≡ N.failed net.old }
    ensures unsent { N.unsent net.old ≤ N.unsent net.new }
    ensures grows { Grows (N.log net.old) (N.log net.new) }
    ensures adds { (s : SealValue) (long : ℕ → ℕ → List ℕ) (sent : List (List ℕ)) → Carries s.key s.boot long (StandsIn sent) frame.now → Adds (IsFrameOf s long sent) (N.log net.old) (N.log net.new) }
{
    let Some((first, rest)) = variants.split_first() else {
        return;
    };
    net.send(first.node, frame);
    send_each(net, rest, frame)
}

// Offers what waits on a way: also to nodes of others, if what waits there is the same but for six bytes.
fn flush_first<N: Net>(
    alloc: Global,
    seal: &Seal,
    counter: &mut u64,
    net: &mut N,
    first: &mut Outlet,
    rest: &mut [Outlet],
) -> Result<(), AllocError>
    ensures failed { N.failed net.new ≡ N.failed net.old }
    ensures unsent { N.unsent net.old ≤ N.unsent net.new }
    ensures grows { Grows (N.log net.old) (N.log net.new) }
    ensures sends { (long : ℕ → ℕ → List ℕ) (sent : List (List ℕ)) → WaitOf sent (first.old ∷ rest.old) → KeepLongs long (first.old ∷ rest.old)
        → Sends seal.now long sent (N.log net.old) (N.log net.new) (first.new ∷ rest.new) }
    ensures ways { AreSameWays (first.old ∷ rest.old) (first.new ∷ rest.new) }
    ensures goes { OnOk result (first.new.waiting ≡ []) }
{
    let content = first.content();
    let Some(place) = place_for(content, rest) else {
        return first.flush(alloc, seal, net);
    };
    let empty = Vec::with_capacity(alloc, FRAME)?;
    let mut variants = Vec::new(alloc);
    gather(content, place, rest, &mut variants);
    let variants = variants.as_slice();
    if variants.is_empty() {
        return first.flush(alloc, seal, net);
    }
    let frame = first.several_frame(seal, *counter, place, variants, empty);
    *counter = counter.saturating_add(1);
    let frame = frame.as_slice();
    first.clear();
    net.send(first.node(), frame);
    send_each(net, variants, frame);
    Ok(())
}

// Offers what waits on some ways; on how many of them memory was refused.
fn flush_all<N: Net>(
    alloc: Global,
    seal: &Seal,
    counter: &mut u64,
    net: &mut N,
    outlets: &mut [Outlet],
) -> u64
    ensures failed { N.failed net.new ≡ N.failed net.old }
    ensures unsent { N.unsent net.old ≤ N.unsent net.new }
    ensures grows { Grows (N.log net.old) (N.log net.new) }
    ensures sends { (long : ℕ → ℕ → List ℕ) (sent : List (List ℕ)) → WaitOf sent outlets.old → KeepLongs long outlets.old → Sends seal.now long sent (N.log net.old) (N.log net.new) outlets.new }
    ensures ways { AreSameWays outlets.old outlets.new }
{
    let Some((first, rest)) = outlets.split_first_mut() else {
        return 0;
    };
    let lost = u64::from(flush_first(alloc, seal, counter, net, first, rest).is_err());
    flush_all(alloc, seal, counter, net, rest).saturating_add(lost)
}

// Sends a packet on the first way to a node, if there is one; on how many ways memory was refused.
fn send_on<N: Net>(
    alloc: Global,
    seal: &Seal,
    net: &mut N,
    outlets: &mut [Outlet],
    node: Node,
    packet: &[u8],
) -> u64
    ensures failed { N.failed net.new ≡ N.failed net.old }
    ensures unsent { N.unsent net.old ≤ N.unsent net.new }
    ensures grows { Grows (N.log net.old) (N.log net.new) }
    ensures sends { (long : ℕ → ℕ → List ℕ) (sent : List (List ℕ)) → WaitOf sent outlets.old → KeepLongs long outlets.old → StandsIn sent packet.now → IsLongOn long node packet.now outlets.old outlets.new
        → Sends seal.now long sent (N.log net.old) (N.log net.new) outlets.new }
    ensures ways { AreSameWays outlets.old outlets.new }
{
    let Some((first, rest)) = outlets.split_first_mut() else {
        return 0;
    };
    if first.node() == node {
        return u64::from(first.send(alloc, seal, net, packet).is_err());
    }
    send_on(alloc, seal, net, rest, node, packet)
}

impl<N: Net> FramedNet<N> {
    /// A net of a node over another one, with the key of its group, and a boot id that no other start of a process has.
    pub fn new(
        alloc: Global,
        inner: N,
        node: Node,
        nodes: &[NodePort],
        key: &[u8],
        boot: &[u8; BOOT],
    ) -> Result<FramedNet<N>, AllocError>
        ensures { IfOk result (IsOver inner node key.now boot.now) }
    {
        Ok(FramedNet {
            alloc,
            inner,
            seal: Seal {
                key: Key::new(key),
                boot: *boot,
            },
            outlets: outlets_to(alloc, nodes)?,
            several: 0,
            opener: Opener::new(alloc, node),
            buffer: vec![in alloc; 0; FRAME + 1]?,
            refused: 0,
            lost: 0,
        })
    }

    /// How many datagrams were no frames of the group for this node, or came before.
    pub fn refused(&self) -> u64
        ensures { result ≡ self.now.refused }
    {
        self.refused
    }

    /// The net that it is over, once what waits is offered.
    pub fn into_inner(mut self) -> N {
        self.flush();
        let FramedNet {
            alloc: _,
            inner,
            seal: _,
            outlets: _,
            several: _,
            opener: _,
            buffer: _,
            refused: _,
            lost: _,
        } = self;
        inner
    }

    // Gives the first packet that was opened, if one waits.
    fn give(&mut self, buffer: &mut [u8]) -> Option<usize>
        ensures within { IfSome result (λ n. n ≤ length buffer.new) }
        ensures arrived { GivesArrived (N.log self.new.inner) self.old.seal.key self.old.opener.node result buffer.new }
        ensures inner { self.new.inner ≡ self.old.inner }
        ensures lost { self.new.lost ≡ self.old.lost }
        ensures outlets { self.new.outlets ≡ self.old.outlets }
        ensures same { IsSameNode self.old self.new }
    {
        self.opener.opened.give(buffer)
    }

    // Takes the next frame; answers whether there was one.
    fn take(&mut self) -> Result<bool, Fault>
        ensures failed { N.failed self.new.inner ≡ failures_after (N.failed self.old.inner) result }
        ensures unsent { N.unsent self.old.inner ≤ N.unsent self.new.inner }
        ensures lost { self.old.lost ≤ self.new.lost }
        ensures answers { Adds IsAnswer (N.log self.old.inner) (N.log self.new.inner) }
        ensures outlets { self.new.outlets ≡ self.old.outlets }
        ensures same { IsSameNode self.old self.new }
    {
        let buffer = self.buffer.as_mut_slice();
        let Some(count) = self.inner.receive(buffer)? else {
            return Ok(false);
        };
        let (frame, _) = buffer.split_at(count);
        let opened = self.opener.open(&self.seal.key, frame);
        self.lost = self.lost.saturating_add(u64::from(opened.is_err()));
        let is_taken = opened.unwrap_or(true);
        self.refused = self.refused.saturating_add(u64::from(!is_taken));
        Ok(true)
    }
}

impl<N: Net> Net for FramedNet<N> {
    ghost use Rattle.std.specs.Prelude.{None, ◌+◌, min};

    ghost log = { λ _. None };

    ghost failed = { λ n. N.failed n.inner };

    ghost unsent = { λ n. min (N.unsent n.inner + n.lost) 18446744073709551615 };

    /// It waits for others that go in its frame, until the next flush. What is offered to the net below by then carries packets that were sent.
    fn send(&mut self, node: Node, bytes: &[u8])
        ensures failed { N.failed self.new.inner ≡ N.failed self.old.inner }
        ensures unsent { min (N.unsent self.old.inner + self.old.lost) 18446744073709551615 ≤ min (N.unsent self.new.inner + self.new.lost) 18446744073709551615 }
        ensures sends { HasSent N.log node bytes.now self.old self.new }
    {
        let (seal, net) = (&self.seal, &mut self.inner);
        let lost = send_on(
            self.alloc,
            seal,
            net,
            self.outlets.as_mut_slice(),
            node,
            bytes,
        );
        self.lost = self.lost.saturating_add(lost);
    }

    fn flush(&mut self)
        ensures failed { N.failed self.new.inner ≡ N.failed self.old.inner }
        ensures unsent { min (N.unsent self.old.inner + self.old.lost) 18446744073709551615 ≤ min (N.unsent self.new.inner + self.new.lost) 18446744073709551615 }
        ensures sends { HasFlushed N.log self.old self.new }
    {
        let (seal, net) = (&self.seal, &mut self.inner);
        let lost = flush_all(
            self.alloc,
            seal,
            &mut self.several,
            net,
            self.outlets.as_mut_slice(),
        );
        self.lost = self.lost.saturating_add(lost);
    }

    /// Opens at most `OPENED` frames for it. What it gives came in sealed frames.
    fn receive(&mut self, buffer: &mut [u8]) -> Result<Option<usize>, Fault>
        ensures within { IfOk result (λ count. IfSome count (λ n. n ≤ length buffer.new)) }
        ensures failed { N.failed self.new.inner ≡ failures_after (N.failed self.old.inner) result }
        ensures unsent { min (N.unsent self.old.inner + self.old.lost) 18446744073709551615 ≤ min (N.unsent self.new.inner + self.new.lost) 18446744073709551615 }
        ensures receives { HasReceived N.log self.old self.new }
        ensures arrived { IfOk result (λ count. GivesArrived (N.log self.new.inner) self.old.seal.key self.old.opener.node count buffer.new) }
    {
        for _ in 0..OPENED {
            if let Some(count) = self.give(buffer) {
                return Ok(Some(count));
            }
            if !self.take()? {
                return Ok(None);
            }
        }
        Ok(self.give(buffer))
    }

    /// It flushes, and waits at the net below if nothing was opened that was not given.
    fn wait(&mut self, limit: Duration)
        ensures failed { N.failed self.new.inner ≡ N.failed self.old.inner }
        ensures unsent { min (N.unsent self.old.inner + self.old.lost) 18446744073709551615 ≤ min (N.unsent self.new.inner + self.new.lost) 18446744073709551615 }
        ensures sends { HasFlushed N.log self.old self.new }
    {
        self.flush();
        if self.opener.opened.is_empty() {
            self.inner.wait(limit);
        }
    }

    fn failures(&self) -> u64 {
        self.inner.failures()
    }

    fn unsent(&self) -> u64 {
        self.inner.unsent().saturating_add(self.lost)
    }

    /// What its own net counts, and the frames that were refused.
    fn strange(&self) -> u64 {
        self.inner.strange().saturating_add(self.refused)
    }

    fn sieved(&self) -> u64 {
        self.inner.sieved()
    }
}
