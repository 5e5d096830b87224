//! What is opened of the frames that come.

ghost use Rattle.std.specs.Prelude.{◌≡◌, ◌≢◌, ℕ, List, true, IfOk};
ghost use Rattle.udp_net.specs.Logs.{Log};
ghost use Rattle.frames.specs.Arrivals.{GivenIn};
ghost use Rattle.frames.specs.Frames.{IsSealed, Opens};
ghost use Rattle.frames.specs.Openers.{OpensOnce, OpensTo, Stands};
ghost use Rattle.frames.specs.Taken.{StayTaken};
ghost use Rattle.frames.specs.declared.head.Head.{Head as HeadValue};
ghost use Rattle.frames.specs.declared.head.Kind.TheVariants.{Piece, Several};

use crate::BOOT;
use crate::content::read_packets;
use crate::head::{Head, Kind};
use crate::hmac::Key;
use crate::partial::{Partials, piece_of};
use crate::peers::Peers;
use crate::row::Row;
use crate::seal::open;
use crate::several::part_of;
use address::Node;
use std::alloc::{AllocError, Global};

/// The frames that came for a node: who sent them, the long packets of which some pieces came, and the packets that were opened and not given yet.
pub(crate) struct Opener {
    alloc: Global,
    node: Node,
    peers: Peers,
    // The same of frames for several nodes, which have counters of their own.
    several: Peers,
    partials: Partials,
    pub(crate) opened: Row,
    // The last packet that was read of a content.
    last: Vec<u8>,
}

impl Drop for Opener {
    fn drop(self) {
        let Opener {
            alloc: _,
            node: _,
            peers: _,
            several: _,
            partials: _,
            opened: _,
            last: _,
        } = self;
    }
}

impl Opener {
    /// Nothing came for a node. Takes no memory.
    pub(crate) fn new(alloc: Global, node: Node) -> Opener
        ensures stands { (l : Log) (key : List ℕ) → Stands l key result }
        ensures node { result.node ≡ node }
    {
        Opener {
            alloc,
            node,
            peers: Peers::new(alloc),
            several: Peers::new(alloc),
            partials: Partials::new(alloc),
            opened: Row::new(alloc),
            last: Vec::new(alloc),
        }
    }

    // Opens a content of packets; answers whether it is one.
    fn open_packets(&mut self, content: &[u8]) -> Result<bool, AllocError>
        ensures stands { (l : Log) (key frame : List ℕ) (h : HeadValue) → GivenIn l frame → Opens key self.old.node frame h content.now → h.kind ≢ Piece
            → Stands l key self.old → Stands l key self.new }
        ensures node { self.new.node ≡ self.old.node }
        ensures peers { self.new.peers ≡ self.old.peers }
        ensures several { self.new.several ≡ self.old.several }
    {
        self.opened.clear();
        self.last.clear();
        match read_packets(&mut self.last, content, &mut self.opened) {
            Ok(true) => Ok(true),
            refused => {
                self.opened.clear();
                refused
            }
        }
    }

    // Opens a content that is a piece; answers whether it is one.
    fn open_piece(&mut self, boot: &[u8; BOOT], content: &[u8]) -> Result<bool, AllocError>
        ensures stands { (l : Log) (key frame : List ℕ) (h : HeadValue) → GivenIn l frame → Opens key self.old.node frame h content.now → h.kind ≡ Piece → h.boot ≡ boot.now
            → Stands l key self.old → Stands l key self.new }
        ensures node { self.new.node ≡ self.old.node }
        ensures peers { self.new.peers ≡ self.old.peers }
        ensures several { self.new.several ≡ self.old.several }
    {
        let Some(piece) = piece_of(content) else {
            return Ok(false);
        };
        if let Some(packet) = self.partials.take(boot, &piece)? {
            self.opened.push(packet.as_slice())?;
        }
        Ok(true)
    }

    // Opens a frame for several nodes with this head and this content.
    fn open_several(&mut self, head: &Head, content: &[u8]) -> Result<bool, AllocError>
        requires { head.now.kind ≡ Several }
        ensures stands { (key frame : List ℕ) → IsSealed key frame head.now content.now → OpensTo key frame self.old self.new }
        ensures once { (key frame : List ℕ) → IsSealed key frame head.now content.now → IfOk result (λ good. good ≡ true → OpensOnce key frame self.old self.new) }
        ensures node { self.new.node ≡ self.old.node }
        ensures stay { StayTaken self.old.several.peers.items self.new.several.peers.items }
        ensures peers { self.new.peers ≡ self.old.peers }
    {
        let Some(part) = part_of(self.alloc, self.node, head.to, content)? else {
            return Ok(false);
        };
        if !self.several.take(&head.boot, head.counter)? {
            return Ok(false);
        }
        self.open_packets(part.as_slice())
    }

    // Opens a frame for one node with this head and this content.
    fn open_one(&mut self, head: &Head, content: &[u8]) -> Result<bool, AllocError>
        requires { head.now.kind ≢ Several }
        ensures stands { (key frame : List ℕ) → IsSealed key frame head.now content.now → OpensTo key frame self.old self.new }
        ensures once { (key frame : List ℕ) → IsSealed key frame head.now content.now → IfOk result (λ good. good ≡ true → OpensOnce key frame self.old self.new) }
        ensures node { self.new.node ≡ self.old.node }
        ensures stay { StayTaken self.old.peers.peers.items self.new.peers.peers.items }
        ensures several { self.new.several ≡ self.old.several }
    {
        if head.to != self.node {
            return Ok(false);
        }
        if !self.peers.take(&head.boot, head.counter)? {
            return Ok(false);
        }
        match head.kind {
            Kind::Packets => self.open_packets(content),
            Kind::Piece => self.open_piece(&head.boot, content),
            Kind::Several => unreachable!(),
        }
    }

    /// Opens a frame, and answers whether it is one of the group for this node that did not come before.
    pub(crate) fn open(&mut self, key: &Key, frame: &[u8]) -> Result<bool, AllocError>
        ensures stands { OpensTo key.now frame.now self.old self.new }
        ensures once { IfOk result (λ good. good ≡ true → OpensOnce key.now frame.now self.old self.new) }
        ensures node { self.new.node ≡ self.old.node }
        ensures stay { StayTaken self.old.peers.peers.items self.new.peers.peers.items × StayTaken self.old.several.peers.items self.new.several.peers.items }
    {
        let Some((head, content)) = open(key, frame) else {
            return Ok(false);
        };
        match head.kind {
            Kind::Several => self.open_several(&head, content),
            Kind::Packets | Kind::Piece => self.open_one(&head, content),
        }
    }
}
