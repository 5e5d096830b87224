//! Calm views: if all members of a view run in it and none is blocked, `World::deliver_all` delivers every message that was sent in the view to all of them, and
//! all of them come to know that these messages are stable. It plays world events alone; `gaps` brings one member level.

ghost use Rattle.std.specs.Prelude.{◌≡◌, ◌+◌, ◌≤◌, length, Some, Ok, false, IfOk, OnOk, OnErr, is_some};
ghost use Rattle.std.specs.List.{list_all};
ghost use Rattle.std.specs.Option.{ForSome, IsSomeAnd};
ghost use Rattle.std.specs.Ordering.{nat_cmp};
ghost use Rattle.std.specs.BTreeMap.{get};
ghost use Rattle.trace_props.specs.Places.{EachPlace};
ghost use Rattle.trace_props.specs.Synchrony.{IsWellOrdered, IsVirtuallySynchronous};
ghost use Rattle.law_processes.specs.Replicas.{ReplicasAgree};
ghost use Rattle.law_processes.specs.Deployments.{IsPlayed};
ghost use Rattle.world_model.specs.Faithful.{IsFaithful};
ghost use Rattle.world_model.specs.Packets.{world_group};
ghost use Rattle.world.specs.NodeStates.{deployment_of, node_states_in};
ghost use Rattle.world.specs.Worlds.{shown, IsLonger};
ghost use Rattle.world.specs.Known.{MembersKnow};
ghost use Rattle.world.specs.Gaps.{is_open_in};
ghost use Rattle.world.specs.Calm.{has_numbers, is_calm, calm_at, coordinates, Speaks, AllSpeak, AllLevel, CalmRound, DeliversAll, IsThrough, most_calm_events, has_calm_view, EndsDelivering, SpeaksShort, AllSpeakShort, AllLevelShort, RoundShort, DeliversShort};

use crate::gaps::{Pair, is_open_in, open_view};
use crate::{NodeState, World};
use address::limits::{GREATEST_NUMBER, MEMBERS, OUTSTANDING, WINDOW};
use address::{Address, Node, ViewId};
use state_transfer::Receiver;
use std::alloc::AllocError;
use std::collections::BTreeMap;
use wire_values::Roster;
use world_model::WorldEvent;

/// Answers whether the order of the member's view has numbers left for every message that may not be stable yet: the window, and what is outstanding.
fn has_numbers<R: Receiver>(node_state: &NodeState<R>) -> bool
    ensures { result ≡ has_numbers node_state.now }
{
    match node_state {
        NodeState::Vacant | NodeState::Ended(_) => false,
        NodeState::Running(member) => {
            member.stable() < GREATEST_NUMBER - (WINDOW + MEMBERS as u64 * OUTSTANDING)
        }
    }
}

/// Answers the same of the member at a node; false if none runs there.
fn numbers_left<R: Receiver>(node_states: &BTreeMap<Node, NodeState<R>>, node: Node) -> bool
    ensures { result ≡ has_numbers (node_states_in (get nat_cmp node_states.now) node) }
{
    match node_states.get(&node) {
        None => false,
        Some(node_state) => has_numbers(node_state),
    }
}

/// Answers whether the member of an address runs in the view of this id and is not blocked.
fn is_there<R: Receiver>(
    node_states: &BTreeMap<Node, NodeState<R>>,
    address: Address,
    view: ViewId,
) -> bool
    ensures { result ≡ is_open_in address view (node_states_in (get nat_cmp node_states.now) address.node) }
{
    match node_states.get(&address.node()) {
        None => false,
        Some(node_state) => is_open_in(node_state, address, view),
    }
}

/// Answers whether every member of a view runs in it and is not blocked.
fn all_are_there<R: Receiver>(node_states: &BTreeMap<Node, NodeState<R>>, view: &Roster) -> bool
    ensures { result ≡ list_all (λ q. is_open_in q view.now.id (node_states_in (get nat_cmp node_states.now) q.node)) view.now.members }
{
    for address in view.members().as_slice() {
        if !is_there(node_states, *address, view.id()) {
            return false;
        }
    }
    true
}

/// Answers whether a view is calm: every member runs in it and is not blocked, and its order has numbers left.
fn is_calm<R: Receiver>(node_states: &BTreeMap<Node, NodeState<R>>, view: &Roster) -> bool
    ensures { result ≡ is_calm (node_states_in (get nat_cmp node_states.now)) view.now }
{
    all_are_there(node_states, view) && numbers_left(node_states, view.id().creator().node())
}

/// Answers the view of the member that runs at a node, if that view is calm (docs/GUARANTEES.md, "A calm view delivers"). Takes no memory.
pub fn calm_view<R: Receiver>(
    node_states: &BTreeMap<Node, NodeState<R>>,
    node: Node,
) -> Option<Roster>
    ensures { result ≡ calm_at (node_states_in (get nat_cmp node_states.now)) node }
{
    match node_states.get(&node)? {
        NodeState::Vacant | NodeState::Ended(_) => None,
        NodeState::Running(member) => {
            if member.is_blocked() {
                return None;
            }
            let view = member.view()?;
            let view = Roster::new(view.id(), view.members().as_slice())?;
            if is_calm(node_states, &view) {
                Some(view)
            } else {
                None
            }
        }
    }
}

/// Answers whether the member that runs here is not blocked and the coordinator of its view is at this node.
fn coordinates<R: Receiver>(node_state: &NodeState<R>, node: Node) -> bool
    ensures { result ≡ coordinates node node_state.now }
{
    match open_view(node_state) {
        None => false,
        Some(view) => view.id().creator().node() == node,
    }
}

impl<R: Receiver> World<R> {
    /// Answers whether the member that runs at a node is the coordinator of its view and is not blocked.
    pub fn coordinates(&self, node: Node) -> bool
        ensures { result ≡ coordinates node ((shown self.now).node_states node) }
    {
        match self.node_states.get(&node) {
            None => false,
            Some(node_state) => coordinates(node_state, node),
        }
    }

    /// Ticks the member of an address, and delivers each packet that it sends by that: FORWARDs of its outstanding messages, and an ACK.
    fn speak(&mut self, address: Address) -> Result<(), AllocError>
        ensures ok { OnOk result (Speaks R.meaning address (shown self.old) (shown self.new)) }
        ensures err { OnErr result (SpeaksShort R.meaning address (shown self.old) (shown self.new)) }
    {
        let known = self.pool.count();
        self.play(&WorldEvent::Tick(address.node()))?;
        self.deliver_past(known)
    }

    /// Does so for every member of a view but its coordinator.
    fn all_speak(&mut self, view: &Roster) -> Result<(), AllocError>
        ensures ok { OnOk result (AllSpeak R.meaning view.now.id.creator (shown self.old) view.now.members (shown self.new)) }
        ensures err { OnErr result (AllSpeakShort R.meaning view.now.id.creator view.now.members (shown self.old) (shown self.new)) }
    {
        let creator = view.id().creator();
        for address in view.members().as_slice() {
            if *address != creator {
                self.speak(*address)?;
            }
        }
        Ok(())
    }

    /// Brings every member of a view level with its coordinator.
    fn all_level(&mut self, view: &Roster) -> Result<(), AllocError>
        ensures ok { OnOk result (AllLevel R.meaning view.now.id (shown self.old) view.now.members (shown self.new)) }
        ensures err { OnErr result (AllLevelShort R.meaning view.now.id view.now.members (shown self.old) (shown self.new)) }
    {
        let creator = view.id().creator();
        for address in view.members().as_slice() {
            if *address != creator {
                let pair = Pair {
                    member: *address,
                    view: view.id(),
                };
                self.bring_level(&pair)?;
            }
        }
        Ok(())
    }

    /// Plays one calm round.
    fn calm_round(&mut self, view: &Roster) -> Result<(), AllocError>
        ensures ok { OnOk result (CalmRound R.meaning view.now (shown self.old) (shown self.new)) }
        ensures err { OnErr result (RoundShort R.meaning view.now (shown self.old) (shown self.new)) }
    {
        self.all_speak(view)?;
        self.all_level(view)
    }

    /// Plays four calm rounds. At most 128 messages are outstanding, and at most 64 are ordered past those that are stable.
    fn four_rounds(&mut self, view: &Roster) -> Result<(), AllocError>
        ensures ok { OnOk result (DeliversAll R.meaning view.now (shown self.old) (shown self.new)) }
        ensures err { OnErr result (DeliversShort R.meaning view.now (shown self.old) (shown self.new)) }
    {
        self.calm_round(view)?; // orders what the window has room for
        self.calm_round(view)?; // frees half of the window at least, and orders more
        self.calm_round(view)?; // orders the rest
        self.calm_round(view) // tells all members that it is stable
    }

    /// Delivers every message that was sent in the view of the member that runs at a node to all members of that view (docs/GUARANTEES.md, "A calm view
    /// delivers"). It plays four calm rounds, at most 4,928 events like those that `run` is given. In each round every member but the coordinator ticks, its
    /// packets are delivered to the coordinator, and then it is brought level, as by `catch_up`. Answers true then: all members have delivered all of these
    /// messages in one order, and know them to be stable.
    ///
    /// Answers false and does nothing unless the view is calm: all its members run in it, none is blocked, and its order has numbers left.
    ///
    /// # Errors
    ///
    /// Out of memory (7). Either a step got no places in the history, and was not begun; or a member got no memory in a step, and has crashed. The steps before
    /// it are carried out.
    pub fn deliver_all(&mut self, node: Node) -> Result<bool, AllocError>
        // It answers whether the view is calm, which the trace says too, but for the numbers; where it is not, nothing is done.
        ensures answer { IfOk result (λ b. b ≡ is_some (calm_at (shown self.old).node_states node)) }
        ensures condition { IfOk result (λ b. b ≡ has_calm_view node (shown self.old)) }
        ensures nothing { result ≡ Ok false → shown self.new ≡ shown self.old }
        // Else these steps are played, at most 4,928 events. Then each member has delivered every message that was sent in the view, and knows it to be stable.
        ensures plays { OnOk result (ForSome (calm_at (shown self.old).node_states node) (λ v. DeliversAll R.meaning v (shown self.old) (shown self.new))) }
        ensures brief { OnOk result (length self.new.history.events ≤ length self.old.history.events + most_calm_events) }
        ensures through { OnOk result (ForSome (calm_at (shown self.old).node_states node) (λ v. IsThrough v (shown self.new))) }
        // Or a beginning of them is played. Then one of the view's members has crashed for want of memory, or a step was not begun and all are open.
        ensures stops { OnErr result (IsSomeAnd (calm_at (shown self.old).node_states node) (λ v. DeliversShort R.meaning v (shown self.old) (shown self.new))) }
        ensures ends { OnErr result (IsSomeAnd (calm_at (shown self.old).node_states node) (λ v. EndsDelivering v (shown self.new))) }
        // What was there is the beginning of what is there. It is a deployment that was played, all rules hold, copies agree, and members know what the trace says, as after `run`.
        ensures longer { IsLonger self.old.history self.new.history }
        ensures deployed { IsPlayed R.meaning world_group (deployment_of (shown self.new).node_states self.new.history.pool self.new.history.trace) }
        ensures faithful { IsFaithful self.new.history }
        ensures ordered { EachPlace IsWellOrdered self.new.history.trace }
        ensures synchronous { IsVirtuallySynchronous R.meaning self.new.history.trace }
        ensures agreeing { EachPlace (ReplicasAgree R.meaning) self.new.history.trace }
        ensures known { MembersKnow R.meaning (shown self.new) }
    {
        let Some(view) = calm_view(&self.node_states, node) else {
            self.kept();
            return Ok(false);
        };
        let _members = view.members();
        if let Err(refused) = self.four_rounds(&view) {
            self.kept();
            return Err(refused);
        }
        self.kept();
        Ok(true)
    }
}
