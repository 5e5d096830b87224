ghost use Rattle.udp_runs.specs.NodeNets.{by_kind};

use address::{Address, Node, ViewId};
use frames::FramedNet;
use std::time::Duration;
use udp_net::{Fault, Neighbour, Net, SievedNet, SocketNet, Word};

/// The net of a node (docs/WIRE.md, "Frames").
pub enum NodeNet {
    /// Plain datagrams.
    Plain(SocketNet),
    /// Frames that are sealed with its group's key, with the words and the packets in them.
    Sealed(SievedNet<FramedNet<SocketNet>>),
}

impl Drop for NodeNet {
    fn drop(self) {
        match self {
            NodeNet::Plain(_) => {}
            NodeNet::Sealed(_) => {}
        }
    }
}

impl Net for NodeNet {
    ghost log = { λ n. by_kind ⟦<SocketNet as Net>⟧.log ⟦<SievedNet<FramedNet<SocketNet>> as Net>⟧.log n };

    ghost failed = { λ n. by_kind ⟦<SocketNet as Net>⟧.failed ⟦<SievedNet<FramedNet<SocketNet>> as Net>⟧.failed n };

    ghost unsent = { λ n. by_kind ⟦<SocketNet as Net>⟧.unsent ⟦<SievedNet<FramedNet<SocketNet>> as Net>⟧.unsent n };

    fn send(&mut self, node: Node, bytes: &[u8]) {
        match self {
            NodeNet::Plain(net) => net.send(node, bytes),
            NodeNet::Sealed(net) => net.send(node, bytes),
        }
    }

    fn flush(&mut self) {
        match self {
            NodeNet::Plain(net) => net.flush(),
            NodeNet::Sealed(net) => net.flush(),
        }
    }

    fn receive(&mut self, buffer: &mut [u8]) -> Result<Option<usize>, Fault> {
        match self {
            NodeNet::Plain(net) => net.receive(buffer),
            NodeNet::Sealed(net) => net.receive(buffer),
        }
    }

    fn wait(&mut self, limit: Duration) {
        match self {
            NodeNet::Plain(net) => net.wait(limit),
            NodeNet::Sealed(net) => net.wait(limit),
        }
    }

    fn failures(&self) -> u64 {
        match self {
            NodeNet::Plain(net) => net.failures(),
            NodeNet::Sealed(net) => net.failures(),
        }
    }

    fn unsent(&self) -> u64 {
        match self {
            NodeNet::Plain(net) => net.unsent(),
            NodeNet::Sealed(net) => net.unsent(),
        }
    }

    fn pass(&mut self, view: Option<ViewId>, members: &[Address]) {
        match self {
            NodeNet::Plain(net) => net.pass(view, members),
            NodeNet::Sealed(net) => net.pass(view, members),
        }
    }

    fn say(&mut self, node: Node, word: &Word) {
        match self {
            NodeNet::Plain(net) => net.say(node, word),
            NodeNet::Sealed(net) => net.say(node, word),
        }
    }

    fn words(&self) -> &[Neighbour] {
        match self {
            NodeNet::Plain(net) => net.words(),
            NodeNet::Sealed(net) => net.words(),
        }
    }

    fn strange(&self) -> u64 {
        match self {
            NodeNet::Plain(net) => net.strange(),
            NodeNet::Sealed(net) => net.strange(),
        }
    }

    fn sieved(&self) -> u64 {
        match self {
            NodeNet::Plain(net) => net.sieved(),
            NodeNet::Sealed(net) => net.sieved(),
        }
    }
}
