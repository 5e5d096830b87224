ghost use Rattle.std.specs.Prelude.{◌≡◌, ◌≤◌, ◌++◌, ◌∷◌, [], true, false, None, Some, length, take, min, OnOk, OnErr, IfOk, IfSome, if◌then◌else◌};
ghost use Rattle.std.specs.Option.{option_copied, option_map};
ghost use Rattle.std.specs.Result.{is_err};
ghost use Rattle.udp_net.specs.declared.net.Received.TheVariants.{Datagram};
ghost use Rattle.udp_net.specs.Logs.{Lists, listing, offering, receiving, answer_of, one_more, failures_after};
ghost use Rattle.memory_nets.specs.declared.memory_net.Listed.TheVariants as listed;
ghost use Rattle.memory_nets.specs.MemoryNets.{MemoryModel, event_of, offered_in, log_of, unsent_after, fails_next, GivesFirst};

use address::{Bytes, Node};
use std::alloc::{AllocError, Global};
use std::collections::VecDeque;
use std::marker::Model;
use std::time::Duration;
use udp_net::{Fault, Net, Received};

/// A datagram that a net in memory was offered.
#[derive(Drop)]
pub struct Offered {
    /// For which node it is.
    pub node: Node,
    /// Its bytes.
    pub bytes: Bytes,
    /// Whether its send failed.
    pub is_lost: bool,
}

/// What a net in memory lists: one thing that happened at it.
pub enum Listed {
    /// A receive was answered.
    Answered(Received),
    /// It was offered a datagram.
    Offered(Offered),
}

impl Drop for Listed {
    fn drop(self) {
        match self {
            Listed::Answered(_) => {}
            Listed::Offered(_) => {}
        }
    }
}

impl Listed {
    /// The datagram that it was offered, if it was.
    pub fn offered(&self) -> Option<&Offered>
        ensures { option_copied result ≡ offered_in self.now }
    {
        match self {
            Listed::Offered(offered) => Some(offered),
            Listed::Answered(_) => None,
        }
    }
}

/// A net in memory: it gives the datagrams that are put into it, and lists what its receives answered and what it was offered, in the order in which that happened. It carries
/// nothing by itself. A receive and a send of it can be made to fail.
pub struct MemoryNet {
    alloc: Global,
    waiting: VecDeque<Bytes>,
    listed: Vec<Listed>,
    // Whether the list has all that happened.
    is_listed: bool,
    receives: u64,
    failing_receive: Option<u64>,
    sends: u64,
    failing_send: Option<u64>,
    failures: u64,
    unsent: u64,
}

impl Drop for MemoryNet {
    fn drop(self) {
        let MemoryNet {
            alloc: _,
            waiting: _,
            listed: _,
            is_listed: _,
            receives: _,
            failing_receive: _,
            sends: _,
            failing_send: _,
            failures: _,
            unsent: _,
        } = self;
    }
}

impl Model for MemoryNet {
    ghost use Rattle.memory_nets.specs.MemoryNets.{MemoryModel};

    ghost Value = { MemoryModel };

    ghost view = { λ n. record {
      waiting = n.waiting.items;
      listed = n.listed.items;
      is_listed = n.is_listed;
      receives = n.receives;
      failing_receive = n.failing_receive;
      sends = n.sends;
      failing_send = n.failing_send;
      failures = n.failures;
      unsent = n.unsent;
    } };
}

impl MemoryNet {
    /// A net in which nothing waits, and which fails nowhere. Takes no memory.
    pub fn new(alloc: Global) -> MemoryNet
        ensures { result ≡ record { waiting = []; listed = []; is_listed = true; receives = 0; failing_receive = None; sends = 0; failing_send = None; failures = 0; unsent = 0 } }
    {
        MemoryNet {
            alloc,
            waiting: VecDeque::new(alloc),
            listed: Vec::new(alloc),
            is_listed: true,
            receives: 0,
            failing_receive: None,
            sends: 0,
            failing_send: None,
            failures: 0,
            unsent: 0,
        }
    }

    /// Puts a datagram behind those that wait to be received.
    pub fn put(&mut self, bytes: &[u8]) -> Result<(), AllocError>
        ensures ok { OnOk result (self.new ≡ record self.old { waiting = self.old.waiting ++ bytes.now ∷ [] }) }
        ensures err { OnErr result (self.new ≡ self.old) }
    {
        let datagram = Bytes::from_slice(self.alloc, bytes)?;
        self.waiting.push_back(datagram)?;
        Ok(())
    }

    /// Lets one receive fail, the first being numbered 1. It takes no datagram.
    pub fn fail_receive(&mut self, number: u64)
        ensures { self.new ≡ record self.old { failing_receive = Some number } }
    {
        self.failing_receive = Some(number);
    }

    /// Lets one send fail, the first being numbered 1. Its datagram is lost, and counts as one that could not be sent.
    pub fn fail_send(&mut self, number: u64)
        ensures { self.new ≡ record self.old { failing_send = Some number } }
    {
        self.failing_send = Some(number);
    }

    /// How many receives it was asked for.
    pub fn receives(&self) -> u64
        ensures { result ≡ self.now.receives }
    {
        self.receives
    }

    /// How many sends it was asked for.
    pub fn sends(&self) -> u64
        ensures { result ≡ self.now.sends }
    {
        self.sends
    }

    /// How many datagrams wait to be received.
    pub fn waiting(&self) -> usize
        ensures { result ≡ length self.now.waiting }
    {
        self.waiting.len()
    }

    /// What its receives answered and what it was offered, in the order in which that happened; `None` once memory was refused for the list.
    pub fn listed(&self) -> Option<&[Listed]>
        ensures { option_map (λ l. l.now) result ≡ (if self.now.is_listed then Some self.now.listed else None) }
    {
        if !self.is_listed {
            return None;
        }
        Some(self.listed.as_slice())
    }

    // Lists what happened, where there is memory for it.
    fn list(&mut self, event: Listed)
        ensures lists { Lists (log_of self.old) (listing (event_of event)) (log_of self.new) }
        ensures listed { self.new.is_listed ≡ true → self.new.listed ≡ self.old.listed ++ event ∷ [] }
        ensures rest { self.new ≡ record self.old { listed = self.new.listed; is_listed = self.new.is_listed } }
    {
        if self.listed.push(event).is_err() {
            self.is_listed = false;
        }
    }

    // Lists a datagram that was given, where there is memory for it.
    fn list_given(&mut self, bytes: &[u8])
        ensures lists { Lists (log_of self.old) (receiving (Datagram bytes.now)) (log_of self.new) }
        ensures rest { self.new ≡ record self.old { listed = self.new.listed; is_listed = self.new.is_listed } }
    {
        match Bytes::from_slice(self.alloc, bytes) {
            Ok(bytes) => self.list(Listed::Answered(Received::Datagram(bytes))),
            Err(_) => self.is_listed = false,
        }
    }

    // Counts a send, and answers whether it fails.
    fn count_send(&mut self) -> bool
        ensures fails { result ≡ fails_next self.old.failing_send self.old.sends }
        ensures counts { self.new ≡ record self.old { sends = one_more self.old.sends; unsent = unsent_after result self.old.unsent } }
        ensures unsent { self.old.unsent ≤ self.new.unsent }
    {
        self.sends = self.sends.saturating_add(1);
        let is_lost = self.failing_send == Some(self.sends);
        if is_lost {
            self.unsent = self.unsent.saturating_add(1);
        }
        is_lost
    }

    // Lists a datagram that it was offered, where there is memory for it.
    fn list_offered(&mut self, node: Node, bytes: &[u8], is_lost: bool)
        ensures lists { Lists (log_of self.old) (offering node bytes.now) (log_of self.new) }
        ensures listed { self.new.is_listed ≡ true → self.new.listed ≡ self.old.listed ++ listed.Offered (record { node = node; bytes = bytes.now; is_lost = is_lost }) ∷ [] }
        ensures rest { self.new ≡ record self.old { listed = self.new.listed; is_listed = self.new.is_listed } }
    {
        match Bytes::from_slice(self.alloc, bytes) {
            Ok(bytes) => self.list(Listed::Offered(Offered {
                node,
                bytes,
                is_lost,
            })),
            Err(_) => self.is_listed = false,
        }
    }
}

// Copies the beginning of bytes, as much as there is room for, to the front of a buffer, and answers how much that is.
fn copy_front(bytes: &[u8], buffer: &mut [u8]) -> usize
    ensures count { result ≡ min (length bytes.now) (length buffer.new) }
    ensures front { take result buffer.new ≡ take result bytes.now }
{
    let count = bytes.len().min(buffer.len());
    buffer[..count].copy_from_slice(&bytes[..count]);
    count
}

impl Net for MemoryNet {
    ghost log = { log_of };

    ghost failed = { λ n. n.failures };

    ghost unsent = { λ n. n.unsent };

    /// Lists it.
    fn send(&mut self, node: Node, bytes: &[u8])
        ensures lists { Lists (log_of self.old) (offering node bytes.now) (log_of self.new) }
        ensures failed { self.new.failures ≡ self.old.failures }
        ensures unsent { self.old.unsent ≤ self.new.unsent }
        ensures listed { self.new.is_listed ≡ true → self.new.listed ≡ self.old.listed ++ listed.Offered (record { node = node; bytes = bytes.now; is_lost = fails_next self.old.failing_send self.old.sends }) ∷ [] }
        ensures rest { self.new ≡ record self.old { listed = self.new.listed; is_listed = self.new.is_listed; sends = one_more self.old.sends; unsent = unsent_after (fails_next self.old.failing_send self.old.sends) self.old.unsent } }
    {
        let is_lost = self.count_send();
        self.list_offered(node, bytes, is_lost);
    }

    /// Gives the one that was put in first of those that wait.
    fn receive(&mut self, buffer: &mut [u8]) -> Result<Option<usize>, Fault>
        ensures within { IfOk result (λ count. IfSome count (λ n. n ≤ length buffer.new)) }
        ensures lists { Lists (log_of self.old) (receiving (answer_of result buffer.new)) (log_of self.new) }
        ensures failed { self.new.failures ≡ failures_after self.old.failures result }
        ensures unsent { self.old.unsent ≤ self.new.unsent }
        ensures fails { is_err result ≡ fails_next self.old.failing_receive self.old.receives }
        ensures rest { self.new ≡ record self.old {
          waiting = self.new.waiting;
          listed = self.new.listed;
          is_listed = self.new.is_listed;
          receives = one_more self.old.receives;
          failures = self.new.failures;
        } }
        ensures gives { GivesFirst self.old.waiting result buffer.new self.new.waiting }
    {
        self.receives = self.receives.saturating_add(1);
        if self.failing_receive == Some(self.receives) {
            self.failures = self.failures.saturating_add(1);
            self.list(Listed::Answered(Received::Failed));
            return Err(Fault::Receive);
        }
        let Some(datagram) = self.waiting.pop_front() else {
            self.list(Listed::Answered(Received::Nothing));
            return Ok(None);
        };
        let count = copy_front(datagram.as_slice(), buffer);
        self.list_given(&buffer[..count]);
        Ok(Some(count))
    }

    /// Does not wait: nothing comes meanwhile.
    fn wait(&mut self, _limit: Duration)
        ensures lists { Lists (log_of self.old) (λ l. l) (log_of self.new) }
        ensures failed { self.new.failures ≡ self.old.failures }
        ensures unsent { self.old.unsent ≤ self.new.unsent }
        ensures same { self.new ≡ self.old }
    {}

    fn failures(&self) -> u64 {
        self.failures
    }

    fn unsent(&self) -> u64 {
        self.unsent
    }
}
