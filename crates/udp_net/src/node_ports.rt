ghost use Rattle.std.specs.Prelude.{◌≡◌};
ghost use Rattle.udp_net.specs.Settings.{port_of};

use address::Node;
use std::marker::Model;
use step_output::OwnedName;
use wire_values::GroupName;

/// The most nodes that settings list.
pub const MOST_NODES: usize = 16;

/// The most rounds without a packet that settings can let pass before a suspicion.
pub const MOST_SILENT: u16 = 10_000;

/// A node and its port.
#[derive(Clone, Copy)]
pub struct NodePort {
    /// The node.
    pub node: Node,
    /// Its port, 1 to 65535.
    pub port: u16,
}

/// What all nodes of a group agree on before they run: the group's name, after how many rounds of silence a member is suspected, and at which ports the nodes
/// are.
pub struct Settings {
    pub(crate) group: OwnedName,
    pub(crate) silent: u16,
    pub(crate) nodes: Vec<NodePort>,
}

impl Drop for Settings {
    fn drop(self) {
        let Settings {
            group: _,
            silent: _,
            nodes: _,
        } = self;
    }
}

impl Model for Settings {
    ghost use Rattle.udp_net.specs.Settings.{SettingsModel};

    ghost Value = { SettingsModel };

    ghost view = { λ s. record { group = s.group; silent = s.silent; nodes = s.nodes.items } };
}

impl Settings {
    /// The name of the group.
    pub fn group(&self) -> GroupName<'_>
        ensures { result ≡ self.now.group }
    {
        self.group.lent()
    }

    /// After how many rounds without a packet an address is suspected, 1 to 10,000.
    pub fn silent(&self) -> u16
        ensures { result ≡ self.now.silent }
    {
        self.silent
    }

    /// The nodes and their ports, 1 to 16 of them, in the order of the text. No two have the same number or the same port.
    pub fn nodes(&self) -> &[NodePort]
        ensures { result.now ≡ self.now.nodes }
    {
        self.nodes.as_slice()
    }

    /// The port of a node; `None` for one that is not listed.
    pub fn port(&self, node: Node) -> Option<u16>
        ensures { result ≡ port_of node self.now.nodes }
    {
        port_in(self.nodes.as_slice(), node)
    }
}

// The port of a node of a list.
pub(crate) fn port_in(nodes: &[NodePort], node: Node) -> Option<u16>
    ensures { result ≡ port_of node nodes.now }
{
    let (first, rest) = nodes.split_first()?;
    if first.node == node {
        return Some(first.port);
    }
    port_in(rest, node)
}
