ghost use Rattle.std.specs.Prelude.{◌≡◌, ◌≤◌, ℕ, Option, length, IfOk, IfSome};
ghost use Rattle.udp_net.specs.Logs.{Log, Lists, offering, receiving, answer_of, failures_after};

use crate::{Fault, Neighbour, Word};
use address::{Address, Bytes, Node, ViewId};
use std::time::Duration;

/// What a receive answered.
pub enum Received {
    /// A datagram, as much of it as there was room for.
    Datagram(Bytes),
    /// That none waited.
    Nothing,
    /// That it failed.
    Failed,
}

impl Drop for Received {
    fn drop(self) {
        match self {
            Received::Datagram(_) => {}
            Received::Nothing => {}
            Received::Failed => {}
        }
    }
}

/// What carries datagrams between nodes: each may be lost, repeated, late, or come out of order (docs/RUNNER.md, "Rounds").
pub trait Net: Drop {
    /// What it lists of itself: what its receives answered and what it was offered since it was made, in the order in which that happened; none, where it lists nothing, as a
    /// socket does, or does so no longer.
    ghost log: { Self → Option Log };

    /// How many receives failed, at most 2^64 - 1.
    ghost failed: { Self → ℕ };

    /// How many datagrams could not be sent, at most 2^64 - 1.
    ghost unsent: { Self → ℕ };

    /// Offers a datagram for a node. Where it cannot be sent, it is lost.
    fn send(&mut self, node: Node, bytes: &[u8])
        ensures lists { Lists (log self.old) (offering node bytes.now) (log self.new) }
        ensures failed { failed self.new ≡ failed self.old }
        ensures unsent { unsent self.old ≤ unsent self.new };

    /// Takes the next datagram that came, into the front of the buffer, and answers its length; `None` where none waits. Of one that is longer than the buffer
    /// the rest is lost.
    fn receive(&mut self, buffer: &mut [u8]) -> Result<Option<usize>, Fault>
        ensures within { IfOk result (λ count. IfSome count (λ n. n ≤ length buffer.new)) }
        ensures lists { Lists (log self.old) (receiving (answer_of result buffer.new)) (log self.new) }
        ensures failed { failed self.new ≡ failures_after (failed self.old) result }
        ensures unsent { unsent self.old ≤ unsent self.new };

    /// Waits until a datagram waits here, but no longer than the limit; less where waiting fails, or something is held back.
    fn wait(&mut self, limit: Duration)
        ensures lists { Lists (log self.old) (λ l. l) (log self.new) }
        ensures failed { failed self.new ≡ failed self.old }
        ensures unsent { unsent self.old ≤ unsent self.new };

    /// How many receives failed, at most 2^64 - 1.
    fn failures(&self) -> u64
        ensures { result ≡ failed self.now };

    /// How many datagrams could not be sent: the system refused them, or too many were held back; at most 2^64 - 1.
    fn unsent(&self) -> u64
        ensures { result ≡ unsent self.now };

    /// Datagrams that were offered and wait, as those that go together in one frame, go now. Nothing is listed by it.
    fn flush(&mut self)
        ensures lists { Lists (log self.old) (λ l. l) (log self.new) }
        ensures failed { failed self.new ≡ failed self.old }
        ensures unsent { unsent self.old ≤ unsent self.new }
    {}

    /// A round of the member is over whose packets it carries. That is in this view now, with these members, or in none. Nothing is listed by it.
    fn pass(&mut self, _view: Option<ViewId>, _members: &[Address])
        ensures lists { Lists (log self.old) (λ l. l) (log self.new) }
        ensures failed { failed self.new ≡ failed self.old }
        ensures unsent { unsent self.old ≤ unsent self.new }
    {}

    /// Says a word to a node, if it is a net that carries words: it is no packet, and no receive gives it. Behind it goes the same in version 1, where no word of version 2 is known
    /// of that node. Nothing is listed by it. From the first one on a net that does
    /// drops what would merge views (docs/RUNNER.md, "What a net drops").
    fn say(&mut self, _node: Node, _word: &Word)
        ensures lists { Lists (log self.old) (λ l. l) (log self.new) }
        ensures failed { failed self.new ≡ failed self.old }
        ensures unsent { unsent self.old ≤ unsent self.new }
    {}

    /// What words told of each node that may say some; of none, if it carries no words.
    fn words(&self) -> &[Neighbour] {
        &[]
    }

    /// How many datagrams it dropped since they named no node that it knows, or came from elsewhere; at most 2^64 - 1.
    fn strange(&self) -> u64 {
        0
    }

    /// How many other packets it dropped on purpose, at most 2^64 - 1.
    fn sieved(&self) -> u64 {
        0
    }
}
