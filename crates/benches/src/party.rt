use address::Node;
use std::alloc::Global;
use std::io;
use std::time::Duration;
use udp_net::{Net, Settings, SocketNet};

/// One of the four nodes.
pub(crate) trait Party: Drop + Sized {
    /// The party of a node over its socket.
    fn new(alloc: Global, settings: &Settings, node: Node, net: SocketNet) -> io::Result<Self>;

    /// Whether the four are together.
    fn is_ready(&mut self) -> bool;

    /// Sends a payload, if it may; answers whether it did.
    fn send(&mut self, payload: &[u8]) -> io::Result<bool>;

    /// Takes the datagrams that came, or has a round. For each message that was delivered to it is appended whether it is its own.
    fn hear(&mut self, rt: &HostRuntime, delivered: &mut Vec<bool>) -> io::Result<()>;

    /// What it put out goes. Then it may sleep for so long while no datagram comes, if it did nothing since the last time.
    fn go(&mut self, rt: &HostRuntime, rest: Duration) -> io::Result<()>;
}
