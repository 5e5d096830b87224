//! A world of members: it carries out events one after another and records what happened. And a change of view completes in it: whether members can complete
//! the one that a member has begun, or go into the one that a member is in, the law that they do, for every world, and that two lone views come into one.
#![tactic(auto)]

ghost use Rattle.std.specs.Prelude.{◌≡◌, ◌+◌, ◌<◌, ◌≤◌, ℕ, true, length, take, Some, IfOk, OnOk, OnErr, vec_len, vec_capacity};
ghost use Rattle.std.specs.BTreeMap.{get};
ghost use Rattle.trace_props.specs.Places.{EachPlace};
ghost use Rattle.trace_props.specs.Synchrony.{IsWellOrdered, IsVirtuallySynchronous};
ghost use Rattle.trace_props.specs.State.{state_of};
ghost use Rattle.law_processes.specs.Replicas.{ReplicasAgree};
ghost use Rattle.std.specs.Option.{ForSome, option_copied, option_map};
ghost use Rattle.world_model.specs.Histories.{running};
ghost use Rattle.world.specs.Worlds.{shown, no_world, IsLonger, WorldStep, Runs};
ghost use Rattle.law_processes.specs.Deployments.{IsPlayed};
ghost use Rattle.world_model.specs.Packets.{packet_numbered, world_group};
ghost use Rattle.world_model.specs.Faithful.{IsFaithful};
ghost use Rattle.world.specs.NodeStates.{deployment_of};
ghost use Rattle.world.specs.Turns.{Carries};
ghost use Rattle.world.specs.Known.{IsStableAt, MembersKnow, stable_at};

mod calm;
mod followers;
mod gaps;
mod installs;
mod law;
mod node_state;
mod nodes;
mod plays;
mod pool;
mod rounds;
mod settle;

use address::limits::{Refusal, STEP_EVENTS};
use address::{Address, Bytes, Node};
pub use calm::calm_view;
pub use followers::{begun, is_settling};
pub use installs::{awaited, awaits_install};
pub use law::{
    calm_views_deliver, lone_views_meet, low_proposals_rise, missing_messages_are_seen,
    views_complete, views_settle,
};
use law_processes::deployments_are_synchronous;
pub use node_state::NodeState;
pub use nodes::carry;
pub use pool::Pool;
pub use rounds::{Round, Rounds, overtaking, round_at};
use state_transfer::Receiver;
use std::alloc::{AllocError, Global};
use std::collections::BTreeMap;
use std::marker::Model;
use trace_props::Trace;
use world_model::{Answer, Reply, WorldEvent};

/// A world of members, one at a node at a time, each with its receiver (docs/GUARANTEES.md, "The world"). Contracts see its history and
/// what stands at each node: nothing yet, one that has ended, or the member that runs.
pub struct World<R: Receiver> {
    alloc: Global,
    node_states: BTreeMap<Node, NodeState<R>>,
    events: Vec<WorldEvent>,
    replies: Vec<Reply>,
    pool: Pool,
    trace: Trace,
}

impl<R: Receiver> Drop for World<R> {
    fn drop(self) {
        let World {
            alloc: _,
            node_states: _,
            events: _,
            replies: _,
            pool: _,
            trace: _,
        } = self;
    }
}

impl<R: Receiver> Model for World<R> {
    ghost use Rattle.std.specs.Ordering.{nat_cmp};
    ghost use Rattle.std.specs.BTreeMap.{get};
    ghost use Rattle.world.specs.Worlds.{WorldValue, IsReached, shown};

    // What stands at its nodes, as data, which `shown` shows by node.
    ghost Value = { WorldValue R };

    ghost view = { λ w. record { history = record { events = w.events.items; replies = w.replies.items; pool = w.pool; trace = w.trace.events }; table = w.node_states.entries } };

    // It came from nothing by world steps. All that is kept follows from that alone (proofs/KeepOfWorlds.antt).
    ghost invariant = { λ w. IsReached R.meaning (shown (record { history = record { events = w.events.items; replies = w.replies.items; pool = w.pool; trace = w.trace.events }; table = w.node_states.entries })) };
}

/// Makes room for the places of a step, for its event and for the reply to it.
fn reserve_step(
    trace: &mut Trace,
    events: &mut Vec<WorldEvent>,
    replies: &mut Vec<Reply>,
) -> Result<(), AllocError>
    ensures room { OnOk result (STEP_EVENTS ≤ trace.new.room) }
    ensures event { OnOk result (vec_len events.new + 1 ≤ vec_capacity events.new) }
    ensures reply { OnOk result (vec_len replies.new + 1 ≤ vec_capacity replies.new) }
    ensures trace { trace.new.events ≡ trace.old.events }
    ensures events { events.new.items ≡ events.old.items }
    ensures replies { replies.new.items ≡ replies.old.items }
{
    trace.reserve(STEP_EVENTS)?;
    events.reserve(1)?;
    replies.reserve(1)
}

impl<R: Receiver> World<R> {
    /// A world in which nothing happened. Takes no memory.
    pub fn new(alloc: Global) -> World<R>
        ensures { shown result ≡ no_world }
    {
        World {
            alloc,
            node_states: BTreeMap::new(alloc),
            events: Vec::new(alloc),
            replies: Vec::new(alloc),
            pool: Pool::new(alloc),
            trace: Trace::new(alloc),
        }
    }

    /// Carries out one event: a world step, and its answer. On refusal of the places of a step nothing has changed.
    fn step(&mut self, event: &WorldEvent) -> Result<Answer, AllocError>
        ensures ok { IfOk result (λ a. (step : WorldStep R.meaning (shown self.old) event.now (shown self.new)) × (step.answer ≡ a)) }
        ensures err { OnErr result (shown self.new ≡ shown self.old) }
    {
        let alloc = self.alloc;
        reserve_step(&mut self.trace, &mut self.events, &mut self.replies)?;
        let event = event.copied(alloc)?;
        let answer = carry(
            alloc,
            &mut self.node_states,
            &mut self.trace,
            &mut self.pool,
            &event,
        )?;
        let place = self.trace.events().len();
        self.replies.push_reserved(Reply { answer, place });
        self.events.push_reserved(event);
        Ok(answer)
    }

    /// What every world keeps.
    fn kept(&self)
        ensures faithful { IsFaithful self.now.history }
        ensures deployed { IsPlayed R.meaning world_group (deployment_of (shown self.now).node_states self.now.history.pool self.now.history.trace) }
        ensures ordered { EachPlace IsWellOrdered self.now.history.trace }
        ensures synchronous { IsVirtuallySynchronous R.meaning self.now.history.trace }
        ensures agreeing { EachPlace (ReplicasAgree R.meaning) self.now.history.trace }
        ensures known { MembersKnow R.meaning (shown self.now) }
    {
        let _ = &self.trace;
        deployments_are_synchronous::<R>();
    }

    /// Carries out events in order, from where the world stands. Answers an error (7) where the places of a step are
    /// refused: then the events before it are carried out, and all stands as before that step.
    pub fn run(&mut self, events: &[WorldEvent]) -> Result<(), AllocError>
        // It comes from where it stood by a world step for each event, of all of them or of the first few, on an error of fewer than all;
        ensures all { OnOk result (Runs R.meaning (shown self.old) events.now (shown self.new)) }
        ensures some { (k : ℕ) × Runs R.meaning (shown self.old) (take k events.now) (shown self.new) }
        ensures fewer { OnErr result ((k : ℕ) × (k < length events.now) × Runs R.meaning (shown self.old) (take k events.now) (shown self.new)) }
        // so what was there is the beginning of what is there,
        ensures longer { IsLonger self.old.history self.new.history }
        // it is a deployment of the world's group, of which each premise holds, and what was put out is the pool;
        ensures deployed { IsPlayed R.meaning world_group (deployment_of (shown self.new).node_states self.new.history.pool self.new.history.trace) }
        // each event is answered as the table says, and all rules hold at every place;
        ensures faithful { IsFaithful self.new.history }
        ensures ordered { EachPlace IsWellOrdered self.new.history.trace }
        ensures synchronous { IsVirtuallySynchronous R.meaning self.new.history.trace }
        // and so the copies of the state agree there: who has delivered as much of a view is in the same state.
        ensures agreeing { EachPlace (ReplicasAgree R.meaning) self.new.history.trace }
        // What a member that runs knows is what the trace says: its view, its receiver's state, how much is delivered and stable.
        ensures known { MembersKnow R.meaning (shown self.new) }
    {
        for event in events {
            if let Err(refused) = self.step(event) {
                self.kept();
                return Err(refused);
            }
        }
        self.kept();
        Ok(())
    }

    /// The events carried out, in order.
    pub fn events(&self) -> &[WorldEvent]
        ensures { result.now ≡ self.now.history.events }
    {
        self.events.as_slice()
    }

    /// The reply to each event carried out, in order.
    pub fn replies(&self) -> &[Reply]
        ensures { result.now ≡ self.now.history.replies }
    {
        self.replies.as_slice()
    }

    /// The packet of a number, from 1, among all that were ever put out, in the order in which they were; None for 0 and where
    /// so many were not put out.
    pub fn packet(&self, number: u64) -> Option<&[u8]>
        ensures { option_copied result ≡ packet_numbered number self.now.history.pool }
    {
        self.pool.packet(number)
    }

    /// Every packet that was ever put out, in the order in which they were.
    pub fn packets(&self) -> &[Bytes]
        ensures { result.now ≡ self.now.history.pool }
    {
        self.pool.packets()
    }

    /// The member that runs at a node; None where none runs there.
    pub fn running(&self, node: Node) -> Option<Address>
        ensures { result ≡ running node self.now.history.trace }
    {
        match self.node_states.get(&node)? {
            NodeState::Running(member) => Some(member.address()),
            NodeState::Vacant | NodeState::Ended(_) => None,
        }
    }

    /// The receiver of the member that runs at a node, as it was given all that happened to that member; None where none runs there.
    pub fn receiver(&self, node: Node) -> Option<&R>
        ensures { option_copied result ≡ option_map (λ p. state_of R.meaning p self.now.history.trace) (running node self.now.history.trace) }
    {
        match self.node_states.get(&node)? {
            NodeState::Vacant | NodeState::Ended(_) => None,
            NodeState::Running(member) => member.receiver(),
        }
    }

    /// How many messages of its view the member that runs at a node knows to be stable (docs/PROTOCOL.md, "Stability"): 0 when a view is installed, and without one. Each member of the view
    /// has delivered these, the first of its order, one that has crashed since too. None where none runs there.
    pub fn stable(&self, node: Node) -> Option<u64>
        ensures value { result ≡ stable_at ((shown self.now).node_states node) }
        ensures delivered { ForSome result (IsStableAt node self.now.history.trace) }
    {
        self.kept();
        match self.node_states.get(&node)? {
            NodeState::Running(member) => Some(member.stable()),
            NodeState::Vacant | NodeState::Ended(_) => None,
        }
    }

    /// What happened.
    pub fn trace(&self) -> &Trace
        ensures { result.now.events ≡ self.now.history.trace }
    {
        &self.trace
    }
}
