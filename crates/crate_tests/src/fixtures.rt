ghost use Rattle.std.specs.Prelude.{◌≤◌};
ghost use Rattle.address.specs.declared.limits.TheConstants.{GREATEST_NUMBER};

use address::{Address, Node, ViewId};
use keyed_state::Token;
use std::alloc::Global;
use view::{Addresses, View};

/// The address of an incarnation at a node.
pub fn address(node: u16, incarnation: u32) -> Address
    requires node { 1 ≤ node }
    requires incarnation { 1 ≤ incarnation }
{
    Address::new(Node::new(node).unwrap(), incarnation).unwrap()
}

/// The first address of a node.
pub fn first_at(node: u16) -> Address
    requires { 1 ≤ node }
{
    Address::first_at(Node::new(node).unwrap())
}

/// The view 1@1.1.
pub fn first_view() -> ViewId {
    ViewId::first_of(first_at(1))
}

/// The first addresses of some nodes; none where memory was refused, or where a node is 0.
pub fn listed(alloc: Global, nodes: &[u16]) -> Option<Addresses> {
    let mut members = Vec::new(alloc);
    for node in nodes {
        members.push(Address::first_at(Node::new(*node)?)).ok()?;
    }
    Some(Addresses::from_vec(members))
}

/// The first view of 1.1, with the first addresses of some nodes as its members.
pub fn view_of(alloc: Global, nodes: &[u16]) -> Option<View> {
    View::new(first_view(), listed(alloc, nodes)?).ok()
}

/// The view id with a counter, made by 1.1.
pub fn view_id(counter: u64) -> ViewId
    requires low { 1 ≤ counter }
    requires high { counter ≤ GREATEST_NUMBER }
{
    ViewId::new(counter, first_at(1)).unwrap()
}

/// The token of a count in the view 1@1.1.
pub fn token(count: u64) -> Token {
    Token {
        view: first_view(),
        count,
    }
}
