ghost use Rattle.std.specs.Prelude.{◌≤◌, length};

use address::{Bytes, Node};
use std::alloc::Global;
use std::cell::RefCell;
use std::collections::VecDeque;
use std::time::Duration;
use udp_net::{Fault, Net};

/// Which call fails. Of all nodes, the first of each kind is numbered 1.
#[derive(Clone, Copy)]
pub enum Failing {
    /// None.
    Nothing,
    /// A receive.
    Receive(u64),
    /// None, but this receive finds nothing, whatever waits.
    Empty(u64),
    /// A send.
    Send(u64),
}

/// What waits for the nodes, how often they asked and sent, and which call fails.
pub struct Wires {
    alloc: Global,
    // Each datagram that waits, and for which node, in the order of their sends.
    waiting: VecDeque<(Node, Bytes)>,
    /// How many receives there were, of all nodes.
    pub receives: u64,
    /// How many sends there were, of all nodes.
    pub sends: u64,
    failing: Failing,
    /// The node for which no net can be made.
    pub taken: Option<Node>,
    /// How often a net of theirs waited.
    pub waits: u64,
    time: Duration,
}

impl Drop for Wires {
    fn drop(self) {
        let Wires {
            alloc: _,
            waiting: _,
            receives: _,
            sends: _,
            failing: _,
            taken: _,
            waits: _,
            time: _,
        } = self;
    }
}

impl Wires {
    /// Wires on which nothing waits, and where no call fails.
    pub fn new(alloc: Global) -> Wires {
        Wires::failing(alloc, Failing::Nothing)
    }

    /// Wires on which nothing waits, and where one call fails.
    pub fn failing(alloc: Global, failing: Failing) -> Wires {
        Wires {
            alloc,
            waiting: VecDeque::new(alloc),
            receives: 0,
            sends: 0,
            failing,
            taken: None,
            waits: 0,
            time: Duration::ZERO,
        }
    }

    /// Lets time pass, and answers what time it is then. The time begins at 0.
    pub fn pass(&mut self, time: Duration) -> Duration {
        self.time = self.time.saturating_add(time);
        self.time
    }

    // Puts a datagram for a node behind the others, unless this send fails.
    fn send(&mut self, node: Node, bytes: &[u8]) {
        self.sends = self.sends.wrapping_add(1);
        if !matches!(self.failing, Failing::Send(at) if at == self.sends) {
            if let Ok(bytes) = Bytes::from_slice(self.alloc, bytes) {
                let _ = self.waiting.push_back((node, bytes));
            }
        }
    }

    // Takes the first datagram for a node.
    fn take(&mut self, node: Node) -> Option<Bytes> {
        let index = self.waiting.iter().position(|waiting| waiting.0 == node)?;
        let (_, bytes) = self.waiting.remove(index)?;
        Some(bytes)
    }

    // The next datagram for a node, unless this receive fails.
    fn receive(&mut self, node: Node) -> Result<Option<Bytes>, Fault> {
        self.receives = self.receives.wrapping_add(1);
        if matches!(self.failing, Failing::Receive(at) if at == self.receives) {
            return Err(Fault::Receive);
        }
        if matches!(self.failing, Failing::Empty(at) if at == self.receives) {
            return Ok(None);
        }
        Ok(self.take(node))
    }
}

/// The net of one node.
#[derive(Drop)]
pub struct Wire<'a> {
    wires: &'a RefCell<Wires>,
    node: Node,
    failures: u64,
}

impl<'a> Wire<'a> {
    /// The net of a node at these wires.
    pub fn new(wires: &'a RefCell<Wires>, node: Node) -> Wire<'a> {
        Wire {
            wires,
            node,
            failures: 0,
        }
    }
}

// Copies bytes to the front of a buffer, as many as it has room for.
fn copied(bytes: &[u8], buffer: &mut [u8]) -> usize
    ensures { result ≤ length buffer.new }
{
    let count = bytes.len().min(buffer.len());
    buffer[..count].copy_from_slice(&bytes[..count]);
    count
}

impl Net for Wire<'_> {
    ghost use Rattle.std.specs.Prelude.{None};

    ghost log = { λ _. None };

    ghost failed = { λ n. n.failures };

    ghost unsent = { λ _. 0 };

    fn send(&mut self, node: Node, bytes: &[u8]) {
        if let Ok(mut wires) = self.wires.try_borrow_mut() {
            wires.send(node, bytes);
        }
    }

    fn receive(&mut self, buffer: &mut [u8]) -> Result<Option<usize>, Fault> {
        let received = match self.wires.try_borrow_mut() {
            Ok(mut wires) => wires.receive(self.node),
            Err(_) => Ok(None),
        };
        match received {
            Ok(Some(bytes)) => Ok(Some(copied(bytes.as_slice(), buffer))),
            Ok(None) => Ok(None),
            Err(fault) => {
                self.failures = self.failures.saturating_add(1);
                Err(fault)
            }
        }
    }

    fn wait(&mut self, _limit: Duration) {
        if let Ok(mut wires) = self.wires.try_borrow_mut() {
            wires.waits = wires.waits.wrapping_add(1);
        }
    }

    fn failures(&self) -> u64 {
        self.failures
    }

    fn unsent(&self) -> u64 {
        0
    }
}
