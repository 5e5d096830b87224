ghost use Rattle.std.specs.Prelude.{◌≡◌, [], IfOk, MatchOption};
ghost use Rattle.udp_net.specs.declared.hosts.TheConstants.{LOCAL};
ghost use Rattle.udp_net.specs.Hosts.{host_of, IsHostOf, AreHostsOf};

use crate::BindError;
use address::Node;
use std::alloc::Global;
use std::io::ErrorKind;
use std::marker::Model;
use std::net::{IpAddr, Ipv4Addr, ToSocketAddrs};

// This machine, as it sees itself.
pub(crate) const LOCAL: IpAddr = IpAddr::V4(Ipv4Addr::LOCALHOST);

// A node, and the host at which it is reached.
#[derive(Clone, Copy)]
pub(crate) struct NodeHost {
    node: Node,
    host: IpAddr,
}

/// Where nodes are reached: the host of this node, at which its socket is bound, and the hosts of others; 127.0.0.1 where none is given.
#[derive(Drop)]
pub struct Hosts {
    own: IpAddr,
    peers: Vec<NodeHost>,
}

impl Model for Hosts {
    ghost use Rattle.udp_net.specs.Hosts.{HostsModel};

    ghost Value = { HostsModel };

    ghost view = { λ h. record { own = h.own; peers = h.peers.items } };
}

impl Hosts {
    /// All nodes are on this machine. Takes no memory.
    pub fn local(alloc: Global) -> Hosts
        ensures { result ≡ record { own = LOCAL; peers = [] } }
    {
        Hosts {
            own: LOCAL,
            peers: Vec::new(alloc),
        }
    }

    /// The host of this node and those of others, each by an IP address or by a name: of the addresses of a name the first one of IPv4, else the first. Of two for
    /// one node the last is taken. Refused with 51 where a name has no address, and with 7 where memory was refused.
    pub fn resolve<R: std::net::Net>(
        alloc: Global,
        network: &R,
        bind: Option<&str>,
        peers: &[(Node, &str)],
    ) -> Result<Hosts, BindError>
        ensures own { IfOk result (λ h. MatchOption bind.entry (h.own ≡ LOCAL) (λ text. IsHostOf text.now h.own)) }
        ensures peers { IfOk result (λ h. AreHostsOf peers.now h.peers) }
    {
        let own = match bind {
            Some(text) => address_of(network, text)?,
            None => LOCAL,
        };
        let mut hosts = Vec::new(alloc);
        for (node, text) in peers {
            let host = address_of(network, text)?;
            match hosts.push(NodeHost { node: *node, host }) {
                Ok(()) => (),
                Err(_) => return Err(BindError::Memory),
            }
        }
        Ok(Hosts { own, peers: hosts })
    }

    /// The host of this node.
    pub fn own(&self) -> IpAddr
        ensures { result ≡ self.now.own }
    {
        self.own
    }

    /// The host of another node.
    pub fn host_of(&self, node: Node) -> IpAddr
        ensures { result ≡ host_of node self.now.peers }
    {
        let mut host = LOCAL;
        for peer in self.peers.as_slice() {
            if peer.node == node {
                host = peer.host;
            }
        }
        host
    }
}

// The IP address of a host: the one that the text spells, or that of a name.
fn address_of<R: std::net::Net>(network: &R, text: &str) -> Result<IpAddr, BindError>
    ensures { IfOk result (IsHostOf text.now) }
{
    match text.parse::<IpAddr>() {
        Ok(address) => Ok(address),
        Err(_) => look_up(network, text),
    }
}

// The IP address of a name: the first one of IPv4, else the first.
fn look_up<R: std::net::Net>(network: &R, name: &str) -> Result<IpAddr, BindError> {
    // No port is asked for.
    match (name, 0).to_socket_addrs(network) {
        Ok(found) => {
            let mut host = None;
            for next in found {
                let is_better = match host {
                    None => true,
                    Some(IpAddr::V6(_)) => next.is_ipv4(),
                    Some(IpAddr::V4(_)) => false,
                };
                if is_better {
                    host = Some(next.ip());
                }
            }
            host.ok_or(BindError::Bind)
        }
        Err(error) if error.kind() == ErrorKind::OutOfMemory => Err(BindError::Memory),
        Err(_) => Err(BindError::Bind),
    }
}
