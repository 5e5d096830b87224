//! The numbers of long packets.

ghost use Rattle.std.specs.Prelude.{◌≡◌, ◌≤◌, ℕ, List, [], IfNone, IfOk, IfSome};
ghost use Rattle.frames.specs.Longs.{AreKnown, HasNumber, IsNumbered, number_for, number_in};

use crate::KEPT_LONGS;
use address::Bytes;
use std::alloc::{AllocError, Global};

/// A long packet that went to a node, and its number.
#[derive(Drop)]
pub(crate) struct Long {
    number: u64,
    packet: Bytes,
}

/// The long packets that went to a node, at most `KEPT_LONGS`: for a new one the first of the others is forgotten; and the next number. A packet that goes again while it is kept has the
/// number that it had, so that its pieces fill what was lost of them.
#[derive(Drop)]
pub(crate) struct Longs {
    next: u64,
    kept: Vec<Long>,
}

// The number of a packet: that of the first kept one with these bytes, or the next one.
fn number_in(kept: &[Long], packet: &[u8], next: u64) -> u64
    ensures number { result ≡ number_in packet.now next kept.now }
    ensures within { result ≤ next }
{
    let Some((first, rest)) = kept.split_first() else {
        return next;
    };
    if first.number < next && first.packet.as_slice() == packet {
        return first.number;
    }
    number_in(rest, packet, next)
}

impl Longs {
    /// None went. Takes no memory.
    pub(crate) fn new(alloc: Global) -> Longs
        ensures next { result.next ≡ 0 }
        ensures kept { result.kept.items ≡ [] }
    {
        Longs {
            next: 0,
            kept: Vec::new(alloc),
        }
    }

    // Keeps a packet, with the next number.
    fn keep(&mut self, alloc: Global, packet: &[u8]) -> Result<(), AllocError>
        ensures next { self.new.next ≡ self.old.next }
        ensures known { (long : ℕ → List ℕ) → AreKnown long self.old → IfOk result (λ _. long self.old.next ≡ packet.now) → AreKnown long self.new }
    {
        let packet = Bytes::from_slice(alloc, packet)?;
        if self.kept.len() >= KEPT_LONGS {
            self.kept.remove(0);
        }
        self.kept.push(Long {
            number: self.next,
            packet,
        })?;
        Ok(())
    }

    /// The number of a packet that goes now; `None` after 2^64 - 1 numbers.
    pub(crate) fn number(&mut self, alloc: Global, packet: &[u8]) -> Result<Option<u64>, AllocError>
        ensures number { IfOk result (λ number. IfSome number (HasNumber packet.now self.old self.new)) }
        ensures last { IfOk result (λ number. IfNone number (self.new.next ≤ number_for packet.now self.old)) }
        ensures next { self.old.next ≤ self.new.next }
        ensures known { (long : ℕ → List ℕ) → AreKnown long self.old → IsNumbered long packet.now self.old self.new → AreKnown long self.new }
    {
        let number = number_in(self.kept.as_slice(), packet, self.next);
        if number < self.next {
            return Ok(Some(number));
        }
        if number == u64::MAX {
            return Ok(None);
        }
        self.keep(alloc, packet)?;
        self.next = number + 1;
        Ok(Some(number))
    }
}
