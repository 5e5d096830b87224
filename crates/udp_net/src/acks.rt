//! The latest ACK for a node, which waits until the next flush (docs/RUNNER.md, "Bursts").

ghost use Rattle.std.specs.Prelude.{◌≡◌, ◌≤◌, [], length, vec_capacity, IfOk};
ghost use Rattle.udp_net.specs.Acks.{is_ack};

use crate::ACK;
use big_endian::put;
use std::alloc::{AllocError, Global};
use std::marker::Model;
use wire::decode;
use wire_values::Body;

/// The latest ACK that was offered for a node since the last flush. It says all that those before it said, so they need not go. Contracts see its bytes; none, if there is none.
#[derive(Drop)]
pub(crate) struct LatestAck {
    bytes: Vec<u8>,
}

impl Model for LatestAck {
    ghost use Rattle.std.specs.Prelude.{List, ℕ, ◌≤◌, length, vec_capacity};
    ghost use Rattle.udp_net.specs.declared.TheConstants.{ACK};

    ghost Value = { List ℕ };

    ghost view = { λ a. a.bytes.items };

    ghost invariant = { λ a. (length a.bytes.items ≤ ACK) × (ACK ≤ vec_capacity a.bytes) };
}

/// Whether a datagram spells an ACK.
pub(crate) fn is_ack(datagram: &[u8]) -> bool
    ensures { result ≡ is_ack datagram.now }
{
    if datagram.len() > ACK {
        return false;
    }
    match decode(datagram) {
        Ok(packet) => matches!(packet.body, Body::Ack { .. }),
        Err(_) => false,
    }
}

impl LatestAck {
    /// None waits.
    pub(crate) fn new(alloc: Global) -> Result<LatestAck, AllocError>
        ensures { IfOk result (λ ack. ack ≡ []) }
    {
        Ok(LatestAck {
            bytes: Vec::with_capacity(alloc, ACK)?,
        })
    }

    /// An ACK waits, in place of the one before it.
    pub(crate) fn put(&mut self, ack: &[u8])
        requires { length ack.now ≤ ACK }
        ensures { self.new ≡ ack.now }
    {
        self.bytes.clear();
        put(ack, &mut self.bytes);
    }

    /// None waits any more.
    pub(crate) fn clear(&mut self)
        ensures { self.new ≡ [] }
    {
        self.bytes.clear();
    }

    /// The one that waits; empty, if none does.
    pub(crate) fn as_slice(&self) -> &[u8]
        ensures is { result.now ≡ self.now }
        ensures most { length result.now ≤ ACK }
    {
        self.bytes.as_slice()
    }
}
