ghost use Rattle.std.specs.Prelude.{◌≡◌, ◌<◌, length, map, position, IfOk, IfSome};
ghost use Rattle.udp_member.specs.Peers.{first_heard, has_node, hearing, is_known, is_outside, met, served, unheard};

use address::{Address, Node};
use std::alloc::{AllocError, Global};
use std::marker::Model;
use view::View;

/// A node at which a member may be sought.
#[derive(Clone, Copy)]
pub struct Peer {
    /// The node.
    pub node: Node,
    /// The latest address there from which a packet came, or that stood in a view; `None` before the first.
    pub heard: Option<Address>,
}

/// The nodes at which members may be sought, whose turn is next first.
#[derive(Drop)]
pub(crate) struct Peers {
    peers: Vec<Peer>,
}

impl Model for Peers {
    ghost use Rattle.std.specs.Prelude.{List};
    ghost use Rattle.udp_member.specs.declared.peers.Peer.{Peer};

    ghost Value = { List Peer };

    ghost view = { λ p. p.peers.items };
}

// A packet came from an address: it is the latest one of its node, unless that has a later incarnation.
fn heard(peer: Peer, source: Address) -> Peer
    ensures { result ≡ hearing source peer }
{
    if peer.node != source.node() || is_known(&peer, source) {
        return peer;
    }
    Peer {
        node: peer.node,
        heard: Some(source),
    }
}

// Whether somebody was heard at the node of this incarnation, or a later one.
fn is_known(peer: &Peer, source: Address) -> bool
    ensures { result ≡ is_known source peer.now }
{
    match peer.heard {
        Some(last) => last.incarnation() >= source.incarnation(),
        None => false,
    }
}

fn hear_all(peers: &mut [Peer], source: Address)
    ensures { peers.new ≡ map (hearing source) peers.old }
{
    for peer in peers.iter_mut() {
        *peer = heard(*peer, source);
    }
}

fn has_node(members: &[Address], node: Node) -> bool
    ensures { result ≡ has_node node members.now }
{
    for member in members {
        if member.node() == node {
            return true;
        }
    }
    false
}

// Whether a member was heard at a node, and none of the node is in a view.
fn is_outside(peer: &Peer, view: &View) -> bool
    ensures { result ≡ is_outside view.now peer.now }
{
    peer.heard.is_some() && !has_node(view.members().as_slice(), peer.node)
}

fn first_outside(peers: &[Peer], view: &View) -> Option<usize>
    ensures place { result ≡ position (is_outside view.now) peers.now }
    ensures within { IfSome result (λ place. place < length peers.now) }
{
    peers.iter().position(|peer| is_outside(peer, view))
}

impl Peers {
    // These nodes, at which nobody was heard yet.
    pub(crate) fn new(alloc: Global, nodes: &[Node]) -> Result<Peers, AllocError>
        ensures { IfOk result (λ peers. peers ≡ map unheard nodes.now) }
    {
        Ok(Peers {
            peers: unheard_at(alloc, nodes)?,
        })
    }

    // A packet came from an address. Takes no memory.
    pub(crate) fn hear(&mut self, source: Address)
        ensures { self.new ≡ map (hearing source) self.old }
    {
        hear_all(self.peers.as_mut_slice(), source);
    }

    // These stand in a view. Takes no memory.
    pub(crate) fn meet(&mut self, members: &[Address])
        ensures { self.new ≡ met members.now self.old }
    {
        for member in members {
            self.hear(*member);
        }
    }

    // Whom to seek outside of a view, if anybody; then it is the turn of the nodes behind. Takes no memory.
    pub(crate) fn next_outside(&mut self, view: &View) -> Option<Address>
        ensures answer { result ≡ first_heard (is_outside view.now) self.old }
        ensures after { self.new ≡ served (is_outside view.now) self.old }
    {
        let peers = self.peers.as_mut_slice();
        let place = first_outside(peers, view)?;
        let sought = peers[place].heard;
        peers.rotate_left(place + 1);
        sought
    }
}

fn unheard_at(alloc: Global, nodes: &[Node]) -> Result<Vec<Peer>, AllocError>
    ensures { IfOk result (λ peers. peers.items ≡ map unheard nodes.now) }
{
    let mut peers = Vec::new(alloc);
    for node in nodes {
        peers.push(Peer {
            node: *node,
            heard: None,
        })?;
    }
    Ok(peers)
}
