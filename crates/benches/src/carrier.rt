use address::Node;
use frames::{BOOT, FramedNet};
use std::alloc::Global;
use std::io;
use udp_net::{Net, Settings, SievedNet, SocketNet};

/// Sealed frames over a socket.
pub(crate) type Framed = FramedNet<SocketNet>;

/// What comes of them that is for a member, as `vsync member --key-file` has it.
pub(crate) type Sealed = SievedNet<Framed>;

/// The key of the group.
pub(crate) const KEY: &[u8] = b"the key of the group";

/// What carries the packets of a member: its socket, or frames over it.
pub(crate) trait Carrier: Net + Sized {
    /// The carrier over a socket.
    fn over(alloc: Global, net: SocketNet, settings: &Settings, node: Node) -> io::Result<Self>;
}

impl Carrier for SocketNet {
    fn over(
        _alloc: Global,
        net: SocketNet,
        _settings: &Settings,
        _node: Node,
    ) -> io::Result<SocketNet> {
        Ok(net)
    }
}

impl<N: Carrier> Carrier for FramedNet<N> {
    fn over(
        alloc: Global,
        net: SocketNet,
        settings: &Settings,
        node: Node,
    ) -> io::Result<FramedNet<N>> {
        let mut bare = net;
        bare.give_all();
        let inner = N::over(alloc, bare, settings, node)?;
        let boot = [(node.number() % 256) as u8; BOOT];
        Ok(FramedNet::new(alloc, inner, node, settings.nodes(), KEY, &boot)?)
    }
}

impl Carrier for Sealed {
    fn over(alloc: Global, net: SocketNet, settings: &Settings, node: Node) -> io::Result<Sealed> {
        let framed = Framed::over(alloc, net, settings, node)?;
        Ok(SievedNet::new(alloc, framed, settings)?)
    }
}
