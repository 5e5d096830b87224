//! The packets for a node, until they go.

ghost use Rattle.std.specs.Prelude.{◌≡◌, ◌≤◌, ◌<◌, ◌+◌, ◌-◌, ◌*◌, ◌^◌, ◌++◌, ◌∷◌, ℕ, List, [], length, take, drop, min, vec_len, vec_capacity, true, OnOk, OnErr};
ghost use Rattle.udp_net.specs.Logs.{Lists, offering};
ghost use Rattle.frames.specs.Frames.{sealed, packed, IsShort};
ghost use Rattle.frames.specs.Arrivals.{StandsIn};
ghost use Rattle.frames.specs.Carried.{count_of, offering_long, offering_pieces};
ghost use Rattle.frames.specs.Nets.{Grows, IsFresh};
ghost use Rattle.frames.specs.Sendings.{Adds, AreLongs, AreOf, IsFrameOf, IsLongAt};
ghost use Rattle.frames.specs.Longs.{IsNumbered, number_for};
ghost use Rattle.std.specs.List.{AllByRecursion};
ghost use Rattle.frames.specs.Gathered.{Takes, several_frame};
ghost use Rattle.frames.specs.Parts.{rows_of};
ghost use Rattle.frames.specs.Outlets.{counter_behind, head_for, has_place, flushing, opening_for, waiting_after};

use crate::content::{put_packet, shared_front};
use crate::head::{Head, Kind, put_head};
use crate::hmac::Key;
use crate::longs::Longs;
use crate::partial::put_piece;
use crate::row::Row;
use crate::seal::seal;
use crate::several::{Variant, put_rows, variant_of};
use crate::{BOOT, CONTENT, FRAME, PIECE, WHOLE};
use address::Node;
use address::limits::DATAGRAM;
use big_endian::{put, put_u8};
use std::alloc::{AllocError, Global};
use std::marker::Model;
use udp_net::Net;

/// With what a process seals its frames: its key, and the boot id of its start.
#[derive(Drop)]
pub(crate) struct Seal {
    pub(crate) key: Key,
    pub(crate) boot: [u8; BOOT],
}

/// The way to a node: how many frames and which long packets went there, and the packets that wait to go together in the next frame.
pub(crate) struct Outlet {
    node: Node,
    frames: u64,
    longs: Longs,
    waiting: Row,
    // What they are in a frame.
    content: Vec<u8>,
}

impl Drop for Outlet {
    fn drop(self) {
        let Outlet {
            node: _,
            frames: _,
            longs: _,
            waiting: _,
            content: _,
        } = self;
    }
}

impl Model for Outlet {
    ghost use Rattle.std.specs.Prelude.{◌≡◌, ◌≤◌, length};
    ghost use Rattle.std.specs.List.{AllByRecursion};
    ghost use Rattle.frames.specs.Frames.{IsShort, packed};
    ghost use Rattle.frames.specs.Arrivals.{StandsIn};
    ghost use Rattle.frames.specs.Carried.{count_of};
    ghost use Rattle.frames.specs.Nets.{Grows};
    ghost use Rattle.frames.specs.Sendings.{Adds, AreOf, IsFrameOf};
    ghost use Rattle.frames.specs.Outlets.{OutletModel};

    ghost Value = { OutletModel };

    ghost view = { λ o. record { node = o.node; frames = o.frames; longs = o.longs; waiting = o.waiting } };

    ghost invariant = { λ o. AllByRecursion IsShort o.waiting × (o.content.items ≡ packed o.waiting) × (length o.content.items ≤ 1356) };
}

// The piece of a packet that has an index.
fn piece_at(packet: &[u8], index: u16) -> &[u8]
    requires { 1344 * index ≤ length packet.now }
    ensures piece { result.now ≡ take 1344 (drop (1344 * index) packet.now) }
    ensures short { length result.now ≤ 1344 }
{
    let (_, left) = packet.split_at(PIECE * usize::from(index));
    if left.len() <= PIECE {
        return left;
    }
    let (piece, _) = left.split_at(PIECE);
    piece
}

impl Outlet {
    // The way to a node, on which nothing went. Takes no memory.
    pub(crate) fn new(alloc: Global, node: Node) -> Outlet
        ensures { IsFresh result }
    {
        Outlet {
            node,
            frames: 0,
            longs: Longs::new(alloc),
            waiting: Row::new(alloc),
            content: Vec::new(alloc),
        }
    }

    // The node.
    pub(crate) fn node(&self) -> Node
        ensures { result ≡ self.now.node }
    {
        self.node
    }

    // The head of the next frame.
    fn head(&self, kind: Kind, seal: &Seal) -> Head
        ensures { result ≡ head_for kind self.now seal.now }
    {
        Head {
            kind,
            to: self.node,
            boot: seal.boot,
            counter: self.frames,
        }
    }

    // The frame of what waits, for this node and for those that have a variant of it, in an empty vector.
    pub(crate) fn several_frame(
        &self,
        sealing: &Seal,
        counter: u64,
        place: usize,
        variants: &[Variant],
        empty: Vec<u8>,
    ) -> Vec<u8>
        requires near { place ≤ 255 }
        requires count { length variants.now ≤ 255 }
        requires empty { empty.items ≡ [] }
        requires room { 46 + length (rows_of variants.now) + length (packed self.now.waiting) ≤ vec_capacity empty }
        ensures fits { self.now.node < 2 ^ 16 }
        ensures is { result.items ≡ several_frame sealing.now counter place variants.now self.now }
    {
        let _node = self.node.number();
        let head = Head {
            kind: Kind::Several,
            to: self.node,
            boot: sealing.boot,
            counter,
        };
        let mut frame = empty;
        put_head(&head, &mut frame);
        put_u8(place as u8, &mut frame);
        put_u8(variants.len() as u8, &mut frame);
        put_rows(variants, &mut frame);
        put(self.content.as_slice(), &mut frame);
        seal(&sealing.key, &mut frame);
        frame
    }

    // Seals a frame's body and offers it.
    fn offer<N: Net>(&mut self, sealing: &Seal, net: &mut N, body: Vec<u8>)
        requires { vec_len body + 16 ≤ vec_capacity body }
        ensures lists { Lists (N.log net.old) (offering self.old.node (sealed sealing.now.key body.items)) (N.log net.new) }
        ensures failed { N.failed net.new ≡ N.failed net.old }
        ensures unsent { N.unsent net.old ≤ N.unsent net.new }
        ensures waiting { self.new.waiting ≡ self.old.waiting }
        ensures longs { self.new.longs ≡ self.old.longs }
        ensures node { self.new.node ≡ self.old.node }
        ensures frames { self.new.frames ≡ min (self.old.frames + 1) 18446744073709551615 }
        ensures grows { Grows (N.log net.old) (N.log net.new) }
    {
        let mut frame = body;
        seal(&sealing.key, &mut frame);
        self.frames = self.frames.saturating_add(1);
        net.send(self.node, frame.as_slice());
    }

    // Offers the packets that wait, in one frame.
    pub(crate) fn flush<N: Net>(
        &mut self,
        alloc: Global,
        seal: &Seal,
        net: &mut N,
    ) -> Result<(), AllocError>
        ensures waiting { OnOk result (self.new.waiting ≡ []) }
        ensures frames { OnOk result (self.new.frames ≡ counter_behind self.old) }
        ensures lists { OnOk result (Lists (N.log net.old) (flushing seal.now self.old) (N.log net.new)) }
        ensures sends { (long : ℕ → ℕ → List ℕ) (sent : List (List ℕ)) → AreOf sent self.old.waiting
            → Adds (IsFrameOf seal.now long sent) (N.log net.old) (N.log net.new) × AreOf sent self.new.waiting }
        ensures longs { self.new.longs ≡ self.old.longs }
        ensures failed { N.failed net.new ≡ N.failed net.old }
        ensures unsent { N.unsent net.old ≤ N.unsent net.new }
        ensures node { self.new.node ≡ self.old.node }
        ensures grows { Grows (N.log net.old) (N.log net.new) }
    {
        if self.waiting.is_empty() {
            return Ok(());
        }
        let _node = self.node.number();
        let mut body = Vec::with_capacity(alloc, FRAME)?;
        put_head(&self.head(Kind::Packets, seal), &mut body);
        put(self.content.as_slice(), &mut body);
        self.waiting.clear();
        self.content.clear();
        self.offer(seal, net, body);
        Ok(())
    }

    // What those that wait are in a frame.
    pub(crate) fn content(&self) -> &[u8]
        ensures is { result.now ≡ packed self.now.waiting }
        ensures short { AllByRecursion IsShort self.now.waiting }
        ensures most { length result.now ≤ 1356 }
    {
        self.content.as_slice()
    }

    // None waits any more.
    pub(crate) fn clear(&mut self)
        ensures { self.new ≡ record self.old { waiting = [] } }
    {
        self.waiting.clear();
        self.content.clear();
    }

    // Takes what waits, if that is as a content but for six bytes at a place.
    pub(crate) fn take_variant(&mut self, content: &[u8], place: usize, variants: &mut Vec<Variant>)
        ensures { Takes place content.now variants.old.items self.old variants.new.items self.new }
    {
        let Some(bytes) = variant_of(content, self.content.as_slice(), place) else {
            return;
        };
        let variant = Variant {
            node: self.node,
            bytes,
        };
        if variants.push(variant).is_ok() {
            self.waiting.clear();
            self.content.clear();
        }
    }

    // Whether a packet has a place in the next frame, beside those that wait.
    fn has_place(&self, packet: &[u8]) -> bool
        ensures { result ≡ has_place packet.now self.now }
    {
        packet.len() + 3 <= CONTENT - self.content.len()
    }

    // A packet waits behind the others. It has a place in the next frame.
    fn wait(&mut self, packet: &[u8]) -> Result<(), AllocError>
        requires { has_place packet.now self.old ≡ true }
        ensures ok { OnOk result (self.new ≡ record self.old { waiting = self.old.waiting ++ packet.now ∷ [] }) }
        ensures node { self.new.node ≡ self.old.node }
        ensures longs { self.new.longs ≡ self.old.longs }
        ensures err { OnErr result (self.new ≡ self.old) }
        ensures of { (sent : List (List ℕ)) → AreOf sent self.old.waiting → StandsIn sent packet.now → AreOf sent self.new.waiting }
    {
        let shared = shared_front(self.waiting.last(), packet);
        self.content.reserve(packet.len() - shared + 3)?;
        self.waiting.push(packet)?;
        put_packet(shared, packet, &mut self.content);
        Ok(())
    }

    // A packet waits, where it has a place in the next frame beside those that wait; else those go first. A longer one goes at once, behind them.
    pub(crate) fn send<N: Net>(
        &mut self,
        alloc: Global,
        seal: &Seal,
        net: &mut N,
        packet: &[u8],
    ) -> Result<(), AllocError>
        ensures waits { OnOk result (length packet.now ≤ 1353 → self.new.waiting ≡ waiting_after packet.now self.old) }
        ensures lists { OnOk result (length packet.now ≤ 1353 → Lists (N.log net.old) (opening_for seal.now packet.now self.old) (N.log net.new)) }
        // All pieces of a longer one go, each once and in order, behind the frame of those that waited.
        ensures pieces { OnOk result (1353 < length packet.now → length packet.now ≤ 40000 → number_for packet.now self.old.longs < self.new.longs.next
            → Lists (N.log net.old) (λ l. offering_long seal.now self.old.node (counter_behind self.old) (number_for packet.now self.old.longs) packet.now (flushing seal.now self.old l)) (N.log net.new)) }
        ensures sends { (long : ℕ → ℕ → List ℕ) (sent : List (List ℕ)) → AreOf sent self.old.waiting → AreLongs long self.old → StandsIn sent packet.now → IsLongAt long packet.now self.old self.new
            → Adds (IsFrameOf seal.now long sent) (N.log net.old) (N.log net.new) × AreOf sent self.new.waiting × AreLongs long self.new }
        ensures next { self.old.longs.next ≤ self.new.longs.next }
        ensures failed { N.failed net.new ≡ N.failed net.old }
        ensures unsent { N.unsent net.old ≤ N.unsent net.new }
        ensures node { self.new.node ≡ self.old.node }
        ensures grows { Grows (N.log net.old) (N.log net.new) }
    {
        if packet.len() > WHOLE {
            self.flush(alloc, seal, net)?;
            return self.send_long(alloc, seal, net, packet);
        }
        if !self.has_place(packet) {
            self.flush(alloc, seal, net)?;
        }
        self.wait(packet)
    }

    // Offers the pieces of a packet from an index on.
    fn send_pieces<N: Net>(
        &mut self,
        alloc: Global,
        seal: &Seal,
        net: &mut N,
        number: u64,
        index: u16,
        count: u16,
        packet: &[u8],
    ) -> Result<(), AllocError>
        requires count { count ≡ count_of packet.now }
        ensures pieces { OnOk result (Lists (N.log net.old) (offering_pieces seal.now self.old.node self.old.frames number index (count - index) packet.now) (N.log net.new)) }
        ensures failed { N.failed net.new ≡ N.failed net.old }
        ensures unsent { N.unsent net.old ≤ N.unsent net.new }
        ensures node { self.new.node ≡ self.old.node }
        ensures waiting { self.new.waiting ≡ self.old.waiting }
        ensures longs { self.new.longs ≡ self.old.longs }
        ensures grows { Grows (N.log net.old) (N.log net.new) }
        ensures sends { (long : ℕ → ℕ → List ℕ) (sent : List (List ℕ)) → StandsIn sent packet.now → long self.old.node number ≡ packet.now
            → Adds (IsFrameOf seal.now long sent) (N.log net.old) (N.log net.new) }
    {
        if index >= count {
            return Ok(());
        }
        let bytes = piece_at(packet, index);
        let _node = self.node.number();
        let mut body = Vec::with_capacity(alloc, FRAME)?;
        put_head(&self.head(Kind::Piece, seal), &mut body);
        put_piece(number, index, count, bytes, &mut body);
        self.offer(seal, net, body);
        self.send_pieces(alloc, seal, net, number, index + 1, count, packet)
    }

    // Offers a packet in pieces. One that is longer than any datagram is lost, and so is each new one after 2^64 - 1 others.
    fn send_long<N: Net>(
        &mut self,
        alloc: Global,
        seal: &Seal,
        net: &mut N,
        packet: &[u8],
    ) -> Result<(), AllocError>
        ensures failed { N.failed net.new ≡ N.failed net.old }
        ensures unsent { N.unsent net.old ≤ N.unsent net.new }
        ensures node { self.new.node ≡ self.old.node }
        ensures waiting { self.new.waiting ≡ self.old.waiting }
        ensures grows { Grows (N.log net.old) (N.log net.new) }
        ensures next { self.old.longs.next ≤ self.new.longs.next }
        ensures pieces { OnOk result (length packet.now ≤ 40000 → number_for packet.now self.old.longs < self.new.longs.next
            → Lists (N.log net.old) (offering_long seal.now self.old.node self.old.frames (number_for packet.now self.old.longs) packet.now) (N.log net.new)) }
        ensures sends { (long : ℕ → ℕ → List ℕ) (sent : List (List ℕ)) → AreLongs long self.old → StandsIn sent packet.now → IsNumbered (long self.old.node) packet.now self.old.longs self.new.longs
            → Adds (IsFrameOf seal.now long sent) (N.log net.old) (N.log net.new) × AreLongs long self.new }
    {
        if packet.len() > DATAGRAM {
            return Ok(());
        }
        let Some(number) = self.longs.number(alloc, packet)? else {
            return Ok(());
        };
        let count = ((packet.len() + PIECE - 1) / PIECE) as u16;
        self.send_pieces(alloc, seal, net, number, 0, count, packet)
    }
}
