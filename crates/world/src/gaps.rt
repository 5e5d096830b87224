//! Gaps close: a member that missed packets is brought level with its coordinator by one STATUS, one NAK and the answers to it.

ghost use Rattle.std.specs.Prelude.{◌≡◌, Ok, false, IfOk, OnOk, OnErr, is_some};
ghost use Rattle.std.specs.Option.{option_copied, ForSome, IsSomeAnd};
ghost use Rattle.std.specs.Ordering.{nat_cmp};
ghost use Rattle.std.specs.BTreeMap.{get};
ghost use Rattle.trace_props.specs.Places.{EachPlace};
ghost use Rattle.trace_props.specs.Synchrony.{IsWellOrdered, IsVirtuallySynchronous};
ghost use Rattle.law_processes.specs.Replicas.{ReplicasAgree};
ghost use Rattle.world_model.specs.Faithful.{IsFaithful};
ghost use Rattle.world_model.specs.declared.WorldEvent.TheVariants.{Deliver};
ghost use Rattle.law_processes.specs.Deployments.{IsPlayed};
ghost use Rattle.world_model.specs.Packets.{world_group};
ghost use Rattle.world.specs.NodeStates.{deployment_of, node_states_in};
ghost use Rattle.world.specs.Worlds.{shown, IsLonger};
ghost use Rattle.world.specs.Known.{MembersKnow};
ghost use Rattle.world.specs.Plays.{Fails};
ghost use Rattle.world.specs.Gaps.{open_view, is_open_in, pair_of, pair_at, has_open_pair, Hands, CatchesUp, Stops, EndsSo, IsLevel};

use crate::{NodeState, World};
use address::{Address, Node, ViewId};
use state_transfer::Receiver;
use std::alloc::AllocError;
use std::collections::BTreeMap;
use view::View;
use world_model::WorldEvent;

/// A member and the coordinator of its view: two members that run in that view and are not blocked.
#[derive(Clone, Copy)]
pub(crate) struct Pair {
    pub(crate) member: Address,
    pub(crate) view: ViewId,
}

/// The view in which the member that runs here is, and is not blocked.
pub(crate) fn open_view<R: Receiver>(node_state: &NodeState<R>) -> Option<&View>
    ensures { option_copied result ≡ open_view node_state.now }
{
    match node_state {
        NodeState::Vacant | NodeState::Ended(_) => None,
        NodeState::Running(member) => {
            if member.is_blocked() {
                None
            } else {
                member.view()
            }
        }
    }
}

/// Whether the member of an address runs here, in a view of this id, and is not blocked.
pub(crate) fn is_open_in<R: Receiver>(
    node_state: &NodeState<R>,
    address: Address,
    view: ViewId,
) -> bool
    ensures { result ≡ is_open_in address view node_state.now }
{
    match node_state {
        NodeState::Vacant | NodeState::Ended(_) => false,
        NodeState::Running(member) => {
            member.address() == address
                && match open_view(node_state) {
                    None => false,
                    Some(open) => open.id() == view,
                }
        }
    }
}

/// The member of an address with the coordinator of its view, if they are two, and the coordinator is open in that view too.
fn pair_of<R: Receiver>(
    node_states: &BTreeMap<Node, NodeState<R>>,
    member: Address,
    view: ViewId,
) -> Option<Pair>
    ensures { result ≡ pair_of (node_states_in (get nat_cmp node_states.now)) member view }
{
    let coordinator = view.creator();
    if coordinator == member {
        return None;
    }
    match node_states.get(&coordinator.node()) {
        None => None,
        Some(node_state) => {
            if is_open_in(node_state, coordinator, view) {
                Some(Pair { member, view })
            } else {
                None
            }
        }
    }
}

/// The same of the member that runs at a node.
fn pair_at<R: Receiver>(node_states: &BTreeMap<Node, NodeState<R>>, node: Node) -> Option<Pair>
    ensures { result ≡ pair_at (node_states_in (get nat_cmp node_states.now)) node }
{
    match node_states.get(&node) {
        None | Some(NodeState::Vacant) | Some(NodeState::Ended(_)) => None,
        Some(NodeState::Running(member)) => {
            if member.is_blocked() {
                return None;
            }
            let view = member.view()?;
            pair_of(node_states, member.address(), view.id())
        }
    }
}

impl<R: Receiver> World<R> {
    /// Delivers the packet of a number, if there is one.
    pub(crate) fn hand(&mut self, number: Option<u64>) -> Result<(), AllocError>
        ensures ok { OnOk result (Hands R.meaning number (shown self.old) (shown self.new)) }
        ensures err { OnErr result (IsSomeAnd number (λ k. Fails R.meaning (shown self.old) (Deliver k) (shown self.new))) }
    {
        match number {
            None => Ok(()),
            Some(number) => self.play(&WorldEvent::Deliver(number)),
        }
    }

    /// Plays the steps of a catch-up.
    pub(crate) fn bring_level(&mut self, pair: &Pair) -> Result<(), AllocError>
        ensures ok { OnOk result (CatchesUp R.meaning pair.now (shown self.old) (shown self.new)) }
        ensures err { OnErr result (Stops R.meaning pair.now (shown self.old) (shown self.new)) }
    {
        let known = self.pool.count();
        self.play(&WorldEvent::Tick(pair.view.creator().node()))?;
        let announced = self.pool.count();
        let status = self.pool.first_for(pair.member, known);
        self.hand(status)?;
        let asked = self.pool.count();
        self.deliver_past(announced)?;
        self.deliver_past(asked)
    }

    /// Brings the member that runs at a node level with the coordinator of its view (docs/GUARANTEES.md, "Gaps close"): a tick of the coordinator, a
    /// delivery of its STATUS to the member, of the NAK if the member puts one out, and of each answer in order. These are events like those that
    /// `run` is given. Answers true then, and the member has delivered in the view what its coordinator has.
    ///
    /// Answers false, and does nothing, unless the member and its coordinator are two, and both run in that view and are not blocked. Answers an error
    /// (7) where the places of a step are refused, which is then not begun, and where memory is refused to one of the two in a step, by which it
    /// crashes; the steps before it are carried out.
    pub fn catch_up(&mut self, node: Node) -> Result<bool, AllocError>
        // It answers whether there are those two, which the trace says too; where there are not, nothing is done.
        ensures answer { IfOk result (λ b. b ≡ is_some (pair_at (shown self.old).node_states node)) }
        ensures condition { IfOk result (λ b. b ≡ has_open_pair node self.old.history.trace) }
        ensures nothing { result ≡ Ok false → shown self.new ≡ shown self.old }
        // Else these steps are played, and the member has delivered in the view what its coordinator has;
        ensures plays { OnOk result (ForSome (pair_at (shown self.old).node_states node) (λ pair. CatchesUp R.meaning pair (shown self.old) (shown self.new))) }
        ensures level { OnOk result (ForSome (pair_at (shown self.old).node_states node) (λ pair. IsLevel pair self.new.history.trace)) }
        // or a beginning of them, and then one of the two has crashed for want of memory, or a step was not begun and both run.
        ensures stops { OnErr result (IsSomeAnd (pair_at (shown self.old).node_states node) (λ pair. Stops R.meaning pair (shown self.old) (shown self.new))) }
        ensures ends { OnErr result (IsSomeAnd (pair_at (shown self.old).node_states node) (λ pair. EndsSo pair (shown self.new))) }
        // What was there is the beginning of what is there; it is a deployment that was played, all rules hold, copies agree, and members know what the trace says, as after `run`.
        ensures longer { IsLonger self.old.history self.new.history }
        ensures deployed { IsPlayed R.meaning world_group (deployment_of (shown self.new).node_states self.new.history.pool self.new.history.trace) }
        ensures faithful { IsFaithful self.new.history }
        ensures ordered { EachPlace IsWellOrdered self.new.history.trace }
        ensures synchronous { IsVirtuallySynchronous R.meaning self.new.history.trace }
        ensures agreeing { EachPlace (ReplicasAgree R.meaning) self.new.history.trace }
        ensures known { MembersKnow R.meaning (shown self.new) }
    {
        let Some(pair) = pair_at(&self.node_states, node) else {
            self.kept();
            return Ok(false);
        };
        if let Err(refused) = self.bring_level(&pair) {
            self.kept();
            return Err(refused);
        }
        self.kept();
        Ok(true)
    }
}
