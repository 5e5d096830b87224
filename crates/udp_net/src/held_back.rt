ghost use Rattle.std.specs.Prelude.{◌≡◌, [], OnOk, OnErr, IfOk, length};
ghost use Rattle.udp_net.specs.Bursts.{is_held, may_wait, held_after, TakesFirst};

use crate::HELD_BACK;
use address::Bytes;
use std::alloc::{AllocError, Global};
use std::collections::VecDeque;
use std::marker::Model;

/// Datagrams that wait to be sent: first in, first out, none twice, and at most `HELD_BACK` bytes of them. Contracts see their list.
#[derive(Drop)]
pub struct HeldBack {
    waiting: VecDeque<Bytes>,
    // How many bytes they have.
    size: usize,
}

impl Model for HeldBack {
    ghost use Rattle.std.specs.Prelude.{List, ℕ, ◌≡◌, ◌≤◌};
    ghost use Rattle.udp_net.specs.Bursts.{size_of};
    ghost use Rattle.udp_net.specs.declared.TheConstants.{HELD_BACK};

    ghost Value = { List (List ℕ) };

    ghost view = { λ h. h.waiting.items };

    ghost invariant = { λ h. (h.size ≡ size_of h.waiting.items) × (h.size ≤ HELD_BACK) };
}

impl HeldBack {
    /// None waits. Takes no memory.
    pub fn new(alloc: Global) -> HeldBack
        ensures { result ≡ [] }
    {
        HeldBack {
            waiting: VecDeque::new(alloc),
            size: 0,
        }
    }

    /// How many wait.
    pub fn len(&self) -> usize
        ensures { result ≡ length self.now }
    {
        self.waiting.len()
    }

    /// Puts a copy of a datagram behind the others, unless it waits already, and answers whether it waits: it is lost where there is no room. An error for want of
    /// memory leaves the others as they were.
    pub fn hold(&mut self, datagram: &[u8]) -> Result<bool, AllocError>
        ensures waits { IfOk result (λ waits. waits ≡ may_wait datagram.now self.old) }
        ensures ok { OnOk result (self.new ≡ held_after datagram.now self.old) }
        ensures err { OnErr result (self.new ≡ self.old) }
    {
        if self.has(datagram) {
            return Ok(true);
        }
        if HELD_BACK - self.size < datagram.len() {
            return Ok(false);
        }
        self.waiting
            .push_back(Bytes::from_slice(*self.waiting.allocator(), datagram)?)?;
        self.size += datagram.len();
        Ok(true)
    }

    /// Takes out the one that waits longest.
    pub fn next(&mut self) -> Option<Bytes>
        ensures { TakesFirst self.old result self.new }
    {
        let datagram = self.waiting.pop_front()?;
        self.size -= datagram.as_slice().len();
        Some(datagram)
    }

    // Whether a datagram waits already.
    fn has(&self, datagram: &[u8]) -> bool
        ensures { result ≡ is_held datagram.now self.now }
    {
        self.waiting
            .iter()
            .any(|waiting| waiting.as_slice() == datagram)
    }
}
