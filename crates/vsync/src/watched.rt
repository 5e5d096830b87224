//! This machine, as whoever looks after a node sees it.

ghost use Rattle.std.specs.Prelude.{◌≡◌, [], None, IfOk};
ghost use Rattle.std.specs.Option.{ForSome};

use crate::incarnations::beside;
use crate::programs::{complain, say};
use address::{Address, Node, ViewId};
use std::alloc::{AllocError, Global};
use std::fs;
use std::time::Duration;
use udp_net::{BindError, Net, NodePort};
use udp_runs::{Loopback, NodeMachine, NodeNet, NodeStatus, Notice, Tally};
use vsync_text::{Part, Text};

/// This machine, which says on the standard error what whoever looks after a node should know, and writes the node's status to a file where it is given one (docs/CLI.md, "Nodes over UDP").
pub(crate) struct Watched<'a, 'b> {
    rt: &'a HostRuntime,
    alloc: Global,
    machine: Loopback<'a>,
    // The nodes of the settings.
    nodes: &'a [NodePort],
    // Where the status is written, and whether it was said that it cannot be.
    status: Option<&'b str>,
    is_unwritten: bool,
    // The members that a view must have in which its node sends.
    quorum: u16,
}

impl Drop for Watched<'_, '_> {
    fn drop(self) {
        let Watched {
            rt: _,
            alloc: _,
            machine: _,
            nodes: _,
            status: _,
            is_unwritten: _,
            quorum: _,
        } = self;
    }
}

// Appends the lines of the view: its id, its members and its coordinator.
fn put_view(text: &mut Text, view: Option<ViewId>, members: &[Address]) {
    let Some(view) = view else {
        text.put(b"view\nmembers\ncoordinator\n");
        return;
    };
    text.put_parts(&[
        Part::Text(b"view "),
        Part::View(view),
        Part::Text(b"\nmembers"),
    ]);
    for address in members {
        text.put_address(b' ', address);
    }
    text.put_parts(&[
        Part::Text(b"\ncoordinator "),
        Part::Address(view.creator()),
        Part::Text(b"\n"),
    ]);
}

// Whether a member of a node is among these.
fn is_there(node: Node, members: &[Address]) -> bool {
    members.iter().any(|member| member.node() == node)
}

// Appends the line of the other nodes at which there is no member of the view.
fn put_sought(text: &mut Text, nodes: &[NodePort], own: Node, members: &[Address]) {
    text.put(b"sought");
    for place in nodes {
        if place.node != own && !is_there(place.node, members) {
            text.put_parts(&[
                Part::Text(b" "),
                Part::Number(u64::from(place.node.number())),
            ]);
        }
    }
    text.put(b"\n");
}

// Appends the line of how long the member is blocked.
fn put_blocked(text: &mut Text, blocked: Option<Duration>) {
    match blocked {
        Some(time) => text.put_parts(&[
            Part::Text(b"blocked "),
            Part::Number(time.as_secs()),
            Part::Text(b"\n"),
        ]),
        None => text.put(b"blocked\n"),
    }
}

// The text of a status.
fn status_text(
    alloc: Global,
    nodes: &[NodePort],
    status: &NodeStatus,
    members: &[Address],
) -> Result<Vec<u8>, AllocError> {
    let mut text = Text::new(alloc);
    text.put_parts(&[
        Part::Text(b"address "),
        Part::Address(status.address),
        Part::Text(b"\n"),
    ]);
    put_view(&mut text, status.view, members);
    put_blocked(&mut text, status.blocked);
    text.put_parts(&[
        Part::Text(b"outstanding "),
        Part::Number(status.outstanding),
        Part::Text(b"\nstable "),
        Part::Number(status.stable),
        Part::Text(b"\n"),
    ]);
    put_sought(&mut text, nodes, status.address.node(), members);
    text.put_parts(&[
        Part::Text(b"strange "),
        Part::Number(status.strange),
        Part::Text(b"\n"),
    ]);
    text.whole()
}

// Writes a text to a file: to a new one beside it, which then takes its place. Answers whether it is there.
fn replace(rt: &HostRuntime, alloc: Global, path: &str, text: &[u8]) -> bool {
    let Ok(new) = beside(alloc, path) else {
        return false;
    };
    fs::write(rt, new.as_str(), text).is_ok() && fs::rename(rt, new.as_str(), path).is_ok()
}

impl<'a, 'b> Watched<'a, 'b> {
    /// This machine, with the nodes of the settings.
    pub(crate) fn new(
        rt: &'a HostRuntime,
        alloc: Global,
        machine: Loopback<'a>,
        nodes: &'a [NodePort],
        status: Option<&'b str>,
        quorum: u16,
    ) -> Watched<'a, 'b> {
        Watched {
            rt,
            alloc,
            machine,
            nodes,
            status,
            is_unwritten: false,
            quorum,
        }
    }

    /// What happened at a node that ran by itself and has ended; `None` where none has.
    pub(crate) fn tally(&self) -> Option<Tally> {
        self.machine.tally()
    }

    /// Whether a socket could not be bound.
    pub(crate) fn is_unbound(&self) -> bool {
        self.machine.is_unbound()
    }
}

impl<'a, 'b> NodeMachine for Watched<'a, 'b> {
    type Net = NodeNet;

    ghost gone = { λ _. None };

    fn net(&mut self, node: Node) -> Result<NodeNet, BindError>
        ensures fresh { IfOk result (λ net. ForSome (⟦<NodeNet as Net>⟧.log net) (λ l. l ≡ [])) }
    {
        self.machine.net(node)
    }

    fn close(&mut self, member: Address, net: NodeNet) {
        self.machine.close(member, net);
    }

    fn now(&mut self) -> Duration {
        self.machine.now()
    }

    fn tell(&mut self, tally: &Tally) {
        self.machine.tell(tally);
    }

    // Where it cannot be written, that is said once.
    fn show(&mut self, status: &NodeStatus, members: &[Address]) {
        let Some(path) = self.status else {
            return;
        };
        let is_written = match status_text(self.alloc, self.nodes, status, members) {
            Ok(text) => replace(self.rt, self.alloc, path, text.as_slice()),
            Err(_) => false,
        };
        if !is_written && !self.is_unwritten {
            self.is_unwritten = true;
            complain(self.rt, "cannot write", path);
        }
    }

    fn notice(&mut self, notice: Notice) {
        let rt = self.rt;
        match notice {
            Notice::LongLine => say(rt, "a line to send has more than 512 bytes: it is not sent"),
            Notice::BadLine(fault) => {
                let number = fault.number();
                let _ = eprintln!(rt;
                    "vsync: a line to send says no command, {number}: it is not sent"
                );
            }
            Notice::FoundNobody => say(
                rt,
                "no view of the group was found: this node makes a new group, without anything that was kept before",
            ),
            Notice::TooFew(members) => {
                let quorum = self.quorum;
                let _ = eprintln!(rt;
                    "vsync: what is to be sent waits: {members} members are there, and {quorum} must be"
                );
            }
        }
    }
}
