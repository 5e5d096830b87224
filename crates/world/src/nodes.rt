//! One event, at its node or with the packet of its number.

ghost use Rattle.std.specs.Prelude.{◌≡◌, ◌≤◌, ℕ, false, nat_eq, List, Some, IfOk, OnOk, OnErr};
ghost use Rattle.std.specs.Ordering.{nat_cmp};
ghost use Rattle.std.specs.BTreeMap.{get};
ghost use Rattle.address.specs.declared.limits.TheConstants.{STEP_EVENTS};
ghost use Rattle.world_model.specs.Histories.{target_of};
ghost use Rattle.world_model.specs.Packets.{packet_numbered};
ghost use Rattle.world.specs.NodeStates.{node_state_at, node_states_in};
ghost use Rattle.world.specs.Turns.{about, ActsAt, KeepsNodeState, CarriesOut, Carries, HandsPacket, Delivers, SameNodeStates};

use crate::node_state;
use crate::node_state::NodeState;
use crate::pool::Pool;
use address::Node;
use address::limits::Refusal;
use state_transfer::Receiver;
use std::alloc::{AllocError, Global};
use std::collections::BTreeMap;
use trace_props::Trace;
use world_model::{Answer, Target, WorldEvent};

/// Makes room for what runs at a node, where there is none yet.
fn keep_node_state<R: Receiver>(
    node_states: &mut BTreeMap<Node, NodeState<R>>,
    node: Node,
) -> Result<(), AllocError>
    ensures kept { OnOk result (KeepsNodeState (get nat_cmp node_states.old node) (get nat_cmp node_states.new node)) }
    ensures others { (m : ℕ) → nat_eq node m ≡ false → get nat_cmp node_states.new m ≡ get nat_cmp node_states.old m }
    ensures err { OnErr result (get nat_cmp node_states.new node ≡ get nat_cmp node_states.old node) }
{
    if !node_states.contains_key(&node) {
        node_states.insert(node, NodeState::Vacant)?;
    }
    Ok(())
}

/// Carries out an event at its node. A node that is not kept was never started: 1.
fn act_at<R: Receiver>(
    alloc: Global,
    node_states: &mut BTreeMap<Node, NodeState<R>>,
    trace: &mut Trace,
    pool: &mut Pool,
    node: Node,
    event: &WorldEvent,
) -> Answer
    requires room { STEP_EVENTS ≤ trace.old.room }
    ensures acts { ActsAt R.meaning event.now result (about (get nat_cmp node_states.old node) trace.old.events pool.old) (about (get nat_cmp node_states.new node) trace.new.events pool.new) }
    ensures others { (m : ℕ) → nat_eq node m ≡ false → get nat_cmp node_states.new m ≡ get nat_cmp node_states.old m }
{
    match node_states.get_mut(&node) {
        Some(node_state) => node_state::act(alloc, node_state, trace, pool, event),
        None => Answer::Refused(Refusal::NotConnected),
    }
}

/// Carries out an event at its node: for a start the node is kept first, which memory may refuse: then nothing is carried out.
fn carry_out<R: Receiver>(
    alloc: Global,
    node_states: &mut BTreeMap<Node, NodeState<R>>,
    trace: &mut Trace,
    pool: &mut Pool,
    node: Node,
    event: &WorldEvent,
) -> Result<Answer, AllocError>
    requires room { STEP_EVENTS ≤ trace.old.room }
    ensures ok { IfOk result (λ a. CarriesOut R.meaning event.now a (about (get nat_cmp node_states.old node) trace.old.events pool.old) (about (get nat_cmp node_states.new node) trace.new.events pool.new)) }
    ensures others { (m : ℕ) → nat_eq node m ≡ false → get nat_cmp node_states.new m ≡ get nat_cmp node_states.old m }
    ensures err { OnErr result (get nat_cmp node_states.new node ≡ get nat_cmp node_states.old node) }
    ensures err_trace { OnErr result (trace.new.events ≡ trace.old.events) }
    ensures err_pool { OnErr result (pool.new ≡ pool.old) }
{
    if event.is_start() {
        keep_node_state(node_states, node)?;
        Ok(act_at(alloc, node_states, trace, pool, node, event))
    } else {
        Ok(act_at(alloc, node_states, trace, pool, node, event))
    }
}

/// Hands the packet of a number to the member that runs at a node, if one does.
fn hear_at<R: Receiver>(
    node_states: &mut BTreeMap<Node, NodeState<R>>,
    trace: &mut Trace,
    pool: &mut Pool,
    node: Node,
    number: u64,
) -> Answer
    requires room { STEP_EVENTS ≤ trace.old.room }
    ensures hears { (bytes : List ℕ) → packet_numbered number pool.old ≡ Some bytes → HandsPacket R.meaning bytes result (about (node_state_at (get nat_cmp node_states.old node)) trace.old.events pool.old) (about (node_state_at (get nat_cmp node_states.new node)) trace.new.events pool.new) }
    ensures others { (m : ℕ) → nat_eq node m ≡ false → get nat_cmp node_states.new m ≡ get nat_cmp node_states.old m }
{
    match node_states.get_mut(&node) {
        Some(node_state) => node_state::hear(node_state, trace, pool, number),
        None => Answer::Done,
    }
}

/// Hands the packet of a number to the running member of its destination's node, if there are both.
fn deliver<R: Receiver>(
    node_states: &mut BTreeMap<Node, NodeState<R>>,
    trace: &mut Trace,
    pool: &mut Pool,
    number: u64,
) -> Answer
    requires room { STEP_EVENTS ≤ trace.old.room }
    ensures { Delivers R.meaning (packet_numbered number pool.old) result (about (node_states_in (get nat_cmp node_states.old)) trace.old.events pool.old) (about (node_states_in (get nat_cmp node_states.new)) trace.new.events pool.new) }
{
    match pool.destination(number) {
        Some(destination) => hear_at(node_states, trace, pool, destination.node(), number),
        None => Answer::Done,
    }
}

/// Carries out an event at its node, or with the packet of its number, and answers it; what is put out joins the pool, what happens the trace, which
/// has room for the events of a step (docs/GUARANTEES.md, "The world"). An error comes where memory is refused for a new node: then nothing is
/// carried out.
pub fn carry<R: Receiver>(
    alloc: Global,
    node_states: &mut BTreeMap<Node, NodeState<R>>,
    trace: &mut Trace,
    pool: &mut Pool,
    event: &WorldEvent,
) -> Result<Answer, AllocError>
    requires room { STEP_EVENTS ≤ trace.old.room }
    ensures ok { IfOk result (λ a. Carries R.meaning (target_of event.now) event.now a (about (node_states_in (get nat_cmp node_states.old)) trace.old.events pool.old) (about (node_states_in (get nat_cmp node_states.new)) trace.new.events pool.new)) }
    ensures err { OnErr result (SameNodeStates (node_states_in (get nat_cmp node_states.old)) (node_states_in (get nat_cmp node_states.new))) }
    ensures err_trace { OnErr result (trace.new.events ≡ trace.old.events) }
    ensures err_pool { OnErr result (pool.new ≡ pool.old) }
{
    match event.target() {
        Target::Member(node) => carry_out(alloc, node_states, trace, pool, node, event),
        Target::Packet(number) => Ok(deliver(node_states, trace, pool, number)),
    }
}
