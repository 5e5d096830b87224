//! Packets in one vector.

ghost use Rattle.std.specs.Prelude.{◌≡◌, ◌≤◌, ◌++◌, ◌∷◌, ℕ, List, [], length, take, nat_eq, nat_le, OnOk, OnErr, IfSome, if◌then◌else◌};
ghost use Rattle.frames.specs.Frames.{last_behind};
ghost use Rattle.frames.specs.Rows.{Gives};

use std::alloc::{AllocError, Global};
use std::marker::Model;

/// Packets, which lie one behind another in one vector, so that none of them takes memory of its own. Contracts see the list of those that were not given yet.
pub(crate) struct Row {
    bytes: Vec<u8>,
    lengths: Vec<usize>,
    // How many were given, and how many bytes these had.
    given: usize,
    start: usize,
    // Where the last one begins.
    last: usize,
}

impl Drop for Row {
    fn drop(self) {
        let Row {
            bytes: _,
            lengths: _,
            given: _,
            start: _,
            last: _,
        } = self;
    }
}

impl Model for Row {
    ghost use Rattle.std.specs.Prelude.{List, ℕ, drop};
    ghost use Rattle.frames.specs.Rows.{cut, IsRow};

    ghost Value = { List (List ℕ) };

    ghost view = { λ r. cut (drop r.given r.lengths.items) (drop r.start r.bytes.items) };

    ghost invariant = { λ r. IsRow r.bytes.items r.lengths.items r.given r.start r.last };
}

// Copies a packet to a buffer where that has room for it; how many bytes it has there.
fn copy_to(packet: &[u8], buffer: &mut [u8]) -> usize
    ensures within { result ≤ length buffer.new }
    ensures given { take result buffer.new ≡ (if nat_le (length packet.now) (length buffer.old) then packet.now else []) }
    ensures length { length buffer.new ≡ length buffer.old }
{
    if buffer.len() < packet.len() {
        return 0;
    }
    buffer[..packet.len()].copy_from_slice(packet);
    packet.len()
}

impl Row {
    /// No packets. Takes no memory.
    pub(crate) fn new(alloc: Global) -> Row
        ensures { result ≡ [] }
    {
        Row {
            bytes: Vec::new(alloc),
            lengths: Vec::new(alloc),
            given: 0,
            start: 0,
            last: 0,
        }
    }

    /// Whether there is none.
    pub(crate) fn is_empty(&self) -> bool
        ensures { result ≡ nat_eq (length self.now) 0 }
    {
        self.given == self.lengths.len()
    }

    /// None are left. Their memory is kept.
    pub(crate) fn clear(&mut self)
        ensures { self.new ≡ [] }
    {
        self.bytes.clear();
        self.lengths.clear();
        self.given = 0;
        self.start = 0;
        self.last = 0;
    }

    /// Puts a packet behind the others.
    pub(crate) fn push(&mut self, packet: &[u8]) -> Result<(), AllocError>
        ensures ok { OnOk result (self.new ≡ self.old ++ packet.now ∷ []) }
        ensures err { OnErr result (self.new ≡ self.old) }
    {
        self.lengths.reserve(1)?;
        let last = self.bytes.len();
        self.bytes.extend_from_slice(packet)?;
        self.lengths.push_reserved(packet.len());
        self.last = last;
        Ok(())
    }

    /// The last one; nothing, if there is none.
    pub(crate) fn last(&self) -> &[u8]
        ensures { result.now ≡ last_behind [] self.now }
    {
        if self.given == self.lengths.len() {
            return &[];
        }
        let (_, last) = self.bytes.as_slice().split_at(self.last);
        last
    }

    /// Gives the first one, where the buffer has room for it; one that is longer is lost.
    pub(crate) fn give(&mut self, buffer: &mut [u8]) -> Option<usize>
        ensures within { IfSome result (λ n. n ≤ length buffer.new) }
        ensures gives { Gives self.old result buffer.new self.new }
    {
        if self.given == self.lengths.len() {
            self.clear();
            return None;
        }
        let length = self.lengths[self.given];
        let (_, left) = self.bytes.as_slice().split_at(self.start);
        let (packet, _) = left.split_at(length);
        let count = copy_to(packet, buffer);
        self.given += 1;
        self.start += length;
        Some(count)
    }
}
