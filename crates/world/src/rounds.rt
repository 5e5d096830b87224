//! The rounds that raise a proposal that is too low: whom each asks, and the view that can complete after them.

ghost use Rattle.std.specs.Prelude.{◌≡◌, Some, None, false, nat_lt, IfOk, if◌then◌else◌};
ghost use Rattle.std.specs.Option.{ForSome, option_map, option_map_or, option_and_then};
ghost use Rattle.std.specs.Ordering.{nat_cmp};
ghost use Rattle.std.specs.BTreeMap.{get};
ghost use Rattle.flush.specs.Flushes.{is_awaited};
ghost use Rattle.world.specs.NodeStates.{node_states_in};
ghost use Rattle.world.specs.declared.node_state.NodeState.TheVariants.{Running};
ghost use Rattle.world.specs.LowProposals.{promised_past, furthest, asked_at, round_in, round_at, asked_past, beyond, beyond_all, followed_by_all, overtaking_at};

use crate::NodeState;
use crate::followers::all_follow;
use address::limits::GREATEST_NUMBER;
use address::{Address, Node, ViewId};
use member::Member;
use state_transfer::Receiver;
use std::alloc::AllocError;
use std::collections::BTreeMap;
use wire_values::Roster;

/// A round: whom it asks, and what the member proposes after it.
#[derive(Drop)]
pub struct Round {
    pub asked: Address,
    pub raised: Roster,
}

/// Two rounds: whom the first asks, whom the second asks if one has promised past what the first raises, and the view that can complete after them.
#[derive(Drop)]
pub struct Rounds {
    pub first: Address,
    pub second: Option<Address>,
    pub view: Roster,
}

/// The counter of the greater proposal that the member of an address has promised, if it runs here.
fn promised_past_here<R: Receiver>(
    node_state: &NodeState<R>,
    proposal: &Roster,
    address: Address,
) -> Option<u64>
    ensures { result ≡ promised_past proposal.now address node_state.now }
{
    match node_state {
        NodeState::Vacant | NodeState::Ended(_) => None,
        NodeState::Running(member) => {
            if member.address() == address {
                member.promised_past(proposal)
            } else {
                None
            }
        }
    }
}

/// The same, at the node of the address.
fn promised_past<R: Receiver>(
    node_states: &BTreeMap<Node, NodeState<R>>,
    proposal: &Roster,
    address: Address,
) -> Option<u64>
    ensures { result ≡ promised_past proposal.now address (node_states_in (get nat_cmp node_states.now) address.node) }
{
    match node_states.get(&address.node()) {
        None => None,
        Some(node_state) => promised_past_here(node_state, proposal, address),
    }
}

/// The same, of one whose report the member awaits.
fn awaited_past<R: Receiver>(
    node_states: &BTreeMap<Node, NodeState<R>>,
    member: &Member<R>,
    proposal: &Roster,
    address: Address,
) -> Option<u64>
    ensures { result ≡ (if option_map_or (λ l. option_map_or (is_awaited address) l.flush false) member.now.member_state false then promised_past proposal.now address (node_states_in (get nat_cmp node_states.now) address.node) else None) }
{
    if member.awaits_report(&address) {
        promised_past(node_states, proposal, address)
    } else {
        None
    }
}

/// Of one that has promised past a proposal and one more, the one that has promised further.
fn further(
    past: Option<u64>,
    best: Option<(Address, u64)>,
    address: Address,
) -> Option<(Address, u64)>
    ensures { result ≡ option_map_or (λ k. if option_map_or (λ b. nat_lt k b.1) best false then best else Some (address, k)) past best }
{
    match past {
        None => best,
        Some(counter) => match best {
            None => Some((address, counter)),
            Some((_, most)) => {
                if counter < most {
                    best
                } else {
                    Some((address, counter))
                }
            }
        },
    }
}

/// Of a list the one whose report the member awaits that has promised furthest past its proposal, and the counter of that.
fn furthest_awaited<R: Receiver>(
    node_states: &BTreeMap<Node, NodeState<R>>,
    member: &Member<R>,
    proposal: &Roster,
    list: &[Address],
) -> Option<(Address, u64)>
    ensures { result ≡ furthest (λ q. if option_map_or (λ l. option_map_or (is_awaited q) l.flush false) member.now.member_state false then promised_past proposal.now q (node_states_in (get nat_cmp node_states.now) q.node) else None) list.now }
{
    let mut best = None;
    for address in list {
        let past = awaited_past(node_states, member, proposal, *address);
        best = further(past, best, *address);
    }
    best
}

/// The one of a proposal's list that has promised furthest past it, and the counter of that.
fn furthest<R: Receiver>(
    node_states: &BTreeMap<Node, NodeState<R>>,
    proposal: &Roster,
) -> Option<(Address, u64)>
    ensures { result ≡ furthest (λ q. promised_past proposal.now q (node_states_in (get nat_cmp node_states.now) q.node)) proposal.now.members }
{
    let mut best = None;
    for address in proposal.members().as_slice() {
        let past = promised_past(node_states, proposal, *address);
        best = further(past, best, *address);
    }
    best
}

/// The round of a member's own flush: `None` where nobody is to be asked, or the counters are used up.
fn round_of<R: Receiver>(
    node_states: &BTreeMap<Node, NodeState<R>>,
    member: &Member<R>,
) -> Result<Option<Round>, AllocError>
    ensures { IfOk result (λ x. x ≡ round_in (node_states_in (get nat_cmp node_states.now)) (Running member.now)) }
{
    let Some(proposal) = member.proposal() else {
        return Ok(None);
    };
    let Some(candidates) = member.anew_past(0)? else {
        return Ok(None);
    };
    let list = candidates.members().as_slice();
    let Some(most) = furthest_awaited(node_states, member, &proposal, list) else {
        return Ok(None);
    };
    match member.anew_past(most.1)? {
        None => Ok(None),
        Some(raised) => Ok(Some(Round {
            asked: most.0,
            raised,
        })),
    }
}

/// The round of the own flush of the member at a node: it asks, of its candidates who have not reported, the one that has promised furthest past the flush's
/// proposal, and raises the proposal past that. `None` where there is nobody to ask, and where the counters are used up. An error for want of memory changes
/// nothing.
pub fn round_at<R: Receiver>(
    node_states: &BTreeMap<Node, NodeState<R>>,
    node: Node,
) -> Result<Option<Round>, AllocError>
    ensures { IfOk result (λ x. x ≡ round_at (node_states_in (get nat_cmp node_states.now)) node) }
{
    match node_states.get(&node) {
        None | Some(NodeState::Vacant) | Some(NodeState::Ended(_)) => Ok(None),
        Some(NodeState::Running(member)) => {
            let round = round_of(node_states, member)?;
            Ok(round)
        }
    }
}

/// A proposal past a counter; `None` where the counters are used up.
fn beyond(counter: u64, proposal: &Roster) -> Option<Roster>
    ensures { result ≡ beyond counter proposal.now }
{
    let last = proposal.id().counter().max(counter);
    if last >= GREATEST_NUMBER {
        return None;
    }
    let id = ViewId::new(last + 1, proposal.id().creator())?;
    Roster::new(id, proposal.members().as_slice())
}

/// The same past the promise of the one that has promised furthest.
fn beyond_furthest(furthest: &Option<(Address, u64)>, proposal: &Roster) -> Option<Roster>
    ensures { result ≡ option_map_or (λ x. beyond x.1 proposal.now) furthest.now (Some proposal.now) }
{
    match furthest {
        None => Some(proposal.copied()),
        Some((_, counter)) => beyond(*counter, proposal),
    }
}

/// The address of this.
fn address_of(furthest: &Option<(Address, u64)>) -> Option<Address>
    ensures { result ≡ option_map (λ x. x.0) furthest.now }
{
    match furthest {
        None => None,
        Some((address, _)) => Some(*address),
    }
}

/// What can complete after a round and a second one behind it.
fn rounds_after<R: Receiver>(
    node_states: &BTreeMap<Node, NodeState<R>>,
    round: &Round,
) -> Option<Rounds>
    ensures view { option_map (λ x. x.view) result ≡ option_and_then (followed_by_all (node_states_in (get nat_cmp node_states.now))) (beyond_all (node_states_in (get nat_cmp node_states.now)) round.now.raised) }
    ensures asks { ForSome result (λ x. (x.first ≡ round.now.asked) × (x.second ≡ asked_past (node_states_in (get nat_cmp node_states.now)) round.now.raised)) }
{
    let furthest = furthest(node_states, &round.raised);
    let view = beyond_furthest(&furthest, &round.raised)?;
    if all_follow(node_states, &view) {
        Some(Rounds {
            first: round.asked,
            second: address_of(&furthest),
            view,
        })
    } else {
        None
    }
}

/// The rounds by which the change of view of the member at a node can complete though its flush is behind: two of them at most raise its proposal past all that
/// its candidates have promised, and then all of them would follow it (docs/GUARANTEES.md, "Views settle"). `None` otherwise. An error for want of memory
/// changes nothing.
pub fn overtaking<R: Receiver>(
    node_states: &BTreeMap<Node, NodeState<R>>,
    node: Node,
) -> Result<Option<Rounds>, AllocError>
    ensures view { IfOk result (λ x. option_map (λ r. r.view) x ≡ overtaking_at (node_states_in (get nat_cmp node_states.now)) node) }
    ensures asks { IfOk result (λ x. ForSome x (λ r. ForSome (round_at (node_states_in (get nat_cmp node_states.now)) node) (λ one. (r.first ≡ one.asked) × (r.second ≡ asked_past (node_states_in (get nat_cmp node_states.now)) one.raised)))) }
{
    match round_at(node_states, node)? {
        None => Ok(None),
        Some(round) => Ok(rounds_after(node_states, &round)),
    }
}
