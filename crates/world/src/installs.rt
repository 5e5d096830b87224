//! Who awaits the INSTALL of a view that its creator is in.

ghost use Rattle.std.specs.Prelude.{◌≡◌, ◌&&◌, ◌||◌};
ghost use Rattle.std.specs.List.{list_all, list_any};
ghost use Rattle.std.specs.Ordering.{nat_cmp};
ghost use Rattle.std.specs.BTreeMap.{get};
ghost use Rattle.world.specs.NodeStates.{node_states_in};
ghost use Rattle.world.specs.LostInstalls.{view_at, keeps_install, awaits_install, is_inside, awaited_at};

use crate::NodeState;
use crate::followers::follows;
use address::{Address, Node};
use state_transfer::Receiver;
use std::collections::BTreeMap;
use wire_values::Roster;

/// Whether the member at a node keeps an INSTALL of its view for an address.
fn keeps_install<R: Receiver>(
    node_states: &BTreeMap<Node, NodeState<R>>,
    node: Node,
    address: Address,
) -> bool
    ensures { result ≡ keeps_install address (node_states_in (get nat_cmp node_states.now) node) }
{
    match node_states.get(&node) {
        None | Some(NodeState::Vacant) | Some(NodeState::Ended(_)) => false,
        Some(NodeState::Running(member)) => member.keeps_install(&address),
    }
}

/// Whether the member of an address awaits its INSTALL of the view of the member at a node: it was sent one, runs, and would follow that view still.
pub fn awaits_install<R: Receiver>(
    node_states: &BTreeMap<Node, NodeState<R>>,
    node: Node,
    view: &Roster,
    address: Address,
) -> bool
    ensures { result ≡ awaits_install (node_states_in (get nat_cmp node_states.now)) node view.now address }
{
    keeps_install(node_states, node, address) && follows(node_states, view, address)
}

/// Whether the member of an address runs here, in a view.
fn is_in_view<R: Receiver>(node_state: &NodeState<R>, view: &Roster, address: Address) -> bool
    ensures { result ≡ is_inside view.now address node_state.now }
{
    match node_state {
        NodeState::Vacant | NodeState::Ended(_) => false,
        NodeState::Running(member) => {
            member.address() == address
                && match member.view() {
                    None => false,
                    Some(current) => current.id() == view.id(),
                }
        }
    }
}

/// The same, at the node of the address.
fn is_inside<R: Receiver>(
    node_states: &BTreeMap<Node, NodeState<R>>,
    view: &Roster,
    address: Address,
) -> bool
    ensures { result ≡ is_inside view.now address (node_states_in (get nat_cmp node_states.now) address.node) }
{
    match node_states.get(&address.node()) {
        None => false,
        Some(node_state) => is_in_view(node_state, view, address),
    }
}

/// Whether each of a view is in it or awaits its INSTALL.
fn all_are_near<R: Receiver>(
    node_states: &BTreeMap<Node, NodeState<R>>,
    node: Node,
    view: &Roster,
) -> bool
    ensures { result ≡ list_all (λ q. is_inside view.now q (node_states_in (get nat_cmp node_states.now) q.node) || awaits_install (node_states_in (get nat_cmp node_states.now)) node view.now q) view.now.members }
{
    for address in view.members().as_slice() {
        if !is_inside(node_states, view, *address)
            && !awaits_install(node_states, node, view, *address)
        {
            return false;
        }
    }
    true
}

/// Whether one of a view awaits its INSTALL.
fn one_awaits<R: Receiver>(
    node_states: &BTreeMap<Node, NodeState<R>>,
    node: Node,
    view: &Roster,
) -> bool
    ensures { result ≡ list_any (awaits_install (node_states_in (get nat_cmp node_states.now)) node view.now) view.now.members }
{
    for address in view.members().as_slice() {
        if awaits_install(node_states, node, view, *address) {
            return true;
        }
    }
    false
}

/// The view of the member that runs at a node, as packets carry it; `None` without one.
fn view_at<R: Receiver>(node_states: &BTreeMap<Node, NodeState<R>>, node: Node) -> Option<Roster>
    ensures { result ≡ view_at (node_states_in (get nat_cmp node_states.now) node) }
{
    match node_states.get(&node)? {
        NodeState::Vacant | NodeState::Ended(_) => None,
        NodeState::Running(member) => {
            let view = member.view()?;
            Roster::new(view.id(), view.members().as_slice())
        }
    }
}

/// The view of the member at a node, if its other members can be brought in: each of it is in it, or was sent an INSTALL of it, runs and would follow it still;
/// and one does that (docs/GUARANTEES.md, "Views settle"). `None` otherwise. Takes no memory.
pub fn awaited<R: Receiver>(
    node_states: &BTreeMap<Node, NodeState<R>>,
    node: Node,
) -> Option<Roster>
    ensures { result ≡ awaited_at (node_states_in (get nat_cmp node_states.now)) node }
{
    let view = view_at(node_states, node)?;
    if all_are_near(node_states, node, &view) && one_awaits(node_states, node, &view) {
        Some(view)
    } else {
        None
    }
}
