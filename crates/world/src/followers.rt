//! Who would follow the proposal of a member's own flush.

ghost use Rattle.std.specs.Prelude.{◌≡◌, is_some};
ghost use Rattle.std.specs.List.{list_all};
ghost use Rattle.std.specs.Ordering.{nat_cmp};
ghost use Rattle.std.specs.BTreeMap.{get};
ghost use Rattle.world.specs.NodeStates.{node_states_in};
ghost use Rattle.world.specs.Settles.{would_follow, settling_at, begun_in};

use crate::NodeState;
use address::{Address, Node};
use state_transfer::Receiver;
use std::collections::BTreeMap;
use wire_values::Roster;

/// Whether the member of an address runs here, is joining or in a view, and would accept a proposal.
fn would_follow<R: Receiver>(node_state: &NodeState<R>, proposal: &Roster, address: Address) -> bool
    ensures { result ≡ would_follow proposal.now address node_state.now }
{
    match node_state {
        NodeState::Vacant | NodeState::Ended(_) => false,
        NodeState::Running(member) => member.address() == address && member.would_follow(proposal),
    }
}

/// The same, at the node of the address.
pub(crate) fn follows<R: Receiver>(
    node_states: &BTreeMap<Node, NodeState<R>>,
    proposal: &Roster,
    address: Address,
) -> bool
    ensures { result ≡ would_follow proposal.now address (node_states_in (get nat_cmp node_states.now) address.node) }
{
    match node_states.get(&address.node()) {
        None => false,
        Some(node_state) => would_follow(node_state, proposal, address),
    }
}

/// Whether all of a proposal's list would follow.
pub(crate) fn all_follow<R: Receiver>(
    node_states: &BTreeMap<Node, NodeState<R>>,
    proposal: &Roster,
) -> bool
    ensures { result ≡ list_all (λ q. would_follow proposal.now q (node_states_in (get nat_cmp node_states.now) q.node)) proposal.now.members }
{
    for address in proposal.members().as_slice() {
        if !follows(node_states, proposal, *address) {
            return false;
        }
    }
    true
}

/// Whether the change of view can complete that the member at a node has begun: the member has a flush of its own, which awaits somebody, and each of its list
/// runs, is joining or in a view, has promised no greater proposal and did not install this one (docs/GUARANTEES.md, "Views settle").
pub fn is_settling<R: Receiver>(node_states: &BTreeMap<Node, NodeState<R>>, node: Node) -> bool
    ensures { result ≡ is_some (settling_at (node_states_in (get nat_cmp node_states.now)) node) }
{
    match node_states.get(&node) {
        None | Some(NodeState::Vacant) | Some(NodeState::Ended(_)) => false,
        Some(NodeState::Running(member)) => match member.proposal() {
            None => false,
            Some(proposal) => all_follow(node_states, &proposal) && member.awaits_reports(),
        },
    }
}

/// How many FLUSHes the member at a node sent when it began its own flush: one to each other of the list; 0 without a flush of its own.
pub fn begun<R: Receiver>(node_states: &BTreeMap<Node, NodeState<R>>, node: Node) -> u64
    ensures { result ≡ begun_in (node_states_in (get nat_cmp node_states.now) node) }
{
    match node_states.get(&node) {
        None | Some(NodeState::Vacant) | Some(NodeState::Ended(_)) => 0,
        Some(NodeState::Running(member)) => member.announced(),
    }
}
