//! The chunks of states that are under way to a node (docs/RUNNER.md, "Bursts").

ghost use Rattle.std.specs.Prelude.{◌≡◌, [], ◌∷◌, ◌++◌, IfOk};
ghost use Rattle.circular_buffer.specs.Buffer.{keep_last};
ghost use Rattle.udp_net.specs.Bursts.{chunk_in, chunk_of, is_under_way, went_just};

use crate::{REMEMBERED, UNDER_WAY};
use address::ViewId;
use circular_buffer::HeapCircularBuffer;
use std::alloc::{AllocError, Global};
use std::marker::Model;
use wire::decode;
use wire_values::Body;

/// A chunk of a state, by what it is: for which proposal, and which one.
#[derive(Clone, Copy)]
pub(crate) struct ChunkName {
    proposal: ViewId,
    index: u8,
}

/// A chunk that went to a node, and in which of the node's turns.
#[derive(Clone, Copy)]
pub(crate) struct GoneChunk {
    name: ChunkName,
    turn: u64,
}

/// The chunks that went to a node, the latest `REMEMBERED` of them. Contracts see their list.
#[derive(Drop)]
pub(crate) struct GoneChunks {
    latest: HeapCircularBuffer<GoneChunk>,
}

impl Model for GoneChunks {
    ghost use Rattle.std.specs.Prelude.{List, ◌≡◌};
    ghost use Rattle.udp_net.specs.declared.TheConstants.{REMEMBERED};
    ghost use Rattle.udp_net.specs.declared.under_way.GoneChunk.{GoneChunk};

    ghost Value = { List GoneChunk };

    ghost view = { λ g. g.latest.items };

    ghost invariant = { λ g. g.latest.capacity ≡ REMEMBERED };
}

// The chunk in a packet, if it has one.
fn chunk_of(body: &Body<'_>) -> Option<ChunkName>
    ensures { result ≡ chunk_of body.now }
{
    match body {
        Body::State { proposal, chunk } => Some(ChunkName {
            proposal: *proposal,
            index: chunk.index(),
        }),
        _ => None,
    }
}

/// The chunk in a datagram, if it spells a packet with one.
pub(crate) fn chunk_in(datagram: &[u8]) -> Option<ChunkName>
    ensures { result ≡ chunk_in datagram.now }
{
    match decode(datagram) {
        Ok(packet) => chunk_of(&packet.body),
        Err(_) => None,
    }
}

impl GoneChunk {
    // Whether it is this chunk, and went within the last `UNDER_WAY` turns up to this one.
    fn went_just(self, name: ChunkName, turn: u64) -> bool
        ensures { result ≡ went_just name turn self }
    {
        self.name.proposal == name.proposal
            && self.name.index == name.index
            && turn.saturating_sub(self.turn) < UNDER_WAY
    }
}

impl GoneChunks {
    /// None went.
    pub(crate) fn new(alloc: Global) -> Result<GoneChunks, AllocError>
        ensures { IfOk result (λ gone. gone ≡ []) }
    {
        Ok(GoneChunks {
            latest: HeapCircularBuffer::with_capacity(alloc, REMEMBERED)?,
        })
    }

    /// Whether a chunk is under way in this turn: it went within the last `UNDER_WAY` turns.
    pub(crate) fn has(&self, name: ChunkName, turn: u64) -> bool
        ensures { result ≡ is_under_way name turn self.now }
    {
        self.latest.iter().any(|gone| gone.went_just(name, turn))
    }

    /// A chunk goes in this turn.
    pub(crate) fn note(&mut self, name: ChunkName, turn: u64)
        ensures { self.new ≡ keep_last REMEMBERED (self.old ++ record { name = name; turn = turn } ∷ []) }
    {
        self.latest.push_back(GoneChunk { name, turn });
    }
}
