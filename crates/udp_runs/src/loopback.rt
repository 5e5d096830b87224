ghost use Rattle.std.specs.Prelude.{◌≡◌, [], Some, None, IfOk, true};
ghost use Rattle.std.specs.Option.{ForSome};
ghost use Rattle.std.specs.Result.{result_err};
ghost use Rattle.udp_runs.specs.Loopbacks.{nothing_asked, unbound_after, IsSealedOver, IsMadeBy};

use crate::node_net::NodeNet;
use crate::{NodeMachine, NodeStatus, Notice, Tally};
use address::{Address, Node};
use frames::{BOOT, FramedNet};
use std::alloc::Global;
use std::marker::Model;
use std::os::fd::RawFd;
use std::random::RandomSource;
use std::rt::Clock;
use std::time::Duration;
use udp_net::{BindError, Hosts, Net, Settings, SievedNet, SocketNet};

/// This machine: each node has a socket of UDP, at its port by the settings. Contracts see whether a socket could not be bound, and what was told.
pub struct Loopback<'a> {
    alloc: Global,
    runtime: &'a HostRuntime,
    settings: &'a Settings,
    hosts: &'a Hosts,
    is_unbound: bool,
    tally: Option<Tally>,
    // Whether a node's datagrams are taken wherever they come from.
    is_open: bool,
    // The key of the group, if its datagrams are sealed.
    key: Option<&'a [u8]>,
    // What ends the waits of its nets too.
    other: Option<RawFd>,
}

impl Drop for Loopback<'_> {
    fn drop(self) {
        let Loopback {
            alloc: _,
            runtime: _,
            settings: _,
            hosts: _,
            is_unbound: _,
            tally: _,
            is_open: _,
            key: _,
            other: _,
        } = self;
    }
}

impl<'a> Model for Loopback<'a> {
    ghost use Rattle.udp_runs.specs.Loopbacks.{LoopbackModel};

    ghost Value = { LoopbackModel };

    ghost use Rattle.std.specs.Option.{option_copied};

    ghost view = { λ l. record { is_unbound = l.is_unbound; told = l.tally; is_open = l.is_open; key = option_copied l.key; other = l.other } };
}

impl<'a> Loopback<'a> {
    /// This machine, for the nodes of the settings at these hosts. No socket was bound yet.
    pub fn new(
        alloc: Global,
        runtime: &'a HostRuntime,
        settings: &'a Settings,
        hosts: &'a Hosts,
    ) -> Loopback<'a>
        ensures { result ≡ nothing_asked }
    {
        Loopback {
            alloc,
            runtime,
            settings,
            hosts,
            is_unbound: false,
            tally: None,
            is_open: false,
            key: None,
            other: None,
        }
    }

    /// From now on the nets that it makes take a node's datagrams wherever they come from, as where addresses are translated on the way.
    pub fn hear_from_anywhere(&mut self)
        ensures { self.new ≡ record self.old { is_open = true } }
    {
        self.is_open = true;
    }

    /// From now on the nets that it makes seal their datagrams with a key of the group, of any length, and take none that is not sealed with it.
    pub fn seal_with(&mut self, key: &'a [u8])
        ensures { self.new ≡ record self.old { key = Some key.now } }
    {
        self.key = Some(key);
    }

    /// From now on the waits of the nets that it makes end too when this descriptor is readable.
    pub fn also_wait_for(&mut self, other: RawFd)
        ensures { self.new ≡ record self.old { other = Some other } }
    {
        self.other = Some(other);
    }

    /// What happened at a node that ran by itself and has ended; `None` where none has.
    pub fn tally(&self) -> Option<Tally>
        ensures { result ≡ self.now.told }
    {
        self.tally
    }

    /// Whether a socket could not be bound.
    pub fn is_unbound(&self) -> bool
        ensures { result ≡ self.now.is_unbound }
    {
        self.is_unbound
    }
}

// A net of sealed frames over a socket, with a new boot id.
fn sealed(
    alloc: Global,
    runtime: &HostRuntime,
    settings: &Settings,
    node: Node,
    socket: SocketNet,
    key: &[u8],
) -> Result<SievedNet<FramedNet<SocketNet>>, BindError>
    ensures { IfOk result (IsSealedOver socket.is_open key.now) }
{
    let mut boot = [0; BOOT];
    if runtime.fill_bytes(&mut boot).is_err() {
        return Err(BindError::Bind);
    }
    let mut bare = socket;
    bare.give_all();
    let framed = FramedNet::new(alloc, bare, node, settings.nodes(), key, &boot)?;
    Ok(SievedNet::new(alloc, framed, settings)?)
}

impl<'a> Loopback<'a> {
    // The net of a node, over a socket of its own.
    fn bind(&self, node: Node) -> Result<NodeNet, BindError>
        ensures { IfOk result (IsMadeBy self.now) }
    {
        let mut socket = SocketNet::bind(
            self.alloc,
            self.runtime,
            self.settings,
            self.hosts,
            node,
        )?;
        if self.is_open {
            socket.hear_from_anywhere();
        }
        if let Some(other) = self.other {
            let _ = socket.also_wait_for(other);
        }
        let Some(key) = self.key else {
            return Ok(NodeNet::Plain(socket));
        };
        let net = sealed(self.alloc, self.runtime, self.settings, node, socket, key)?;
        Ok(NodeNet::Sealed(net))
    }
}

impl<'a> NodeMachine for Loopback<'a> {
    type Net = NodeNet;

    ghost gone = { λ _. None };

    fn net(&mut self, node: Node) -> Result<NodeNet, BindError>
        ensures fresh { IfOk result (λ net. ForSome (⟦<NodeNet as Net>⟧.log net) (λ l. l ≡ [])) }
        ensures made { IfOk result (IsMadeBy self.old) }
        ensures after { self.new ≡ record self.old { is_unbound = unbound_after self.old.is_unbound (result_err result) } }
    {
        match self.bind(node) {
            Ok(net) => Ok(net),
            Err(error) => {
                if error == BindError::Bind {
                    self.is_unbound = true;
                }
                Err(error)
            }
        }
    }

    // Its socket is closed.
    fn close(&mut self, _member: Address, _net: NodeNet)
        ensures { self.new ≡ self.old }
    {}

    // Nobody looks after its nodes.
    fn show(&mut self, _status: &NodeStatus, _members: &[Address])
        ensures { self.new ≡ self.old }
    {}

    fn notice(&mut self, _notice: Notice)
        ensures { self.new ≡ self.old }
    {}

    fn now(&mut self) -> Duration
        ensures { self.new ≡ self.old }
    {
        match self.runtime.monotonic() {
            Ok(time) => time,
            Err(_) => Duration::MAX,
        }
    }

    fn tell(&mut self, tally: &Tally)
        ensures { self.new ≡ record self.old { told = Some tally.now } }
    {
        self.tally = Some(*tally);
    }
}
