//! A change of view completes: where all of a proposal's list run and would accept it, a tick of its creator and deliveries bring all of them into the view;
//! where INSTALLs of a view were lost, so do ticks of those who await them; and where the proposal is too low, rounds raise it first.

ghost use Rattle.std.specs.Prelude.{◌≡◌, ◌+◌, ◌≤◌, ◌⊎◌, length, Ok, false, IfOk, OnOk, OnErr, is_some};
ghost use Rattle.std.specs.Option.{ForSome, IsSomeAnd};
ghost use Rattle.trace_props.specs.Places.{EachPlace};
ghost use Rattle.trace_props.specs.Synchrony.{IsWellOrdered, IsVirtuallySynchronous};
ghost use Rattle.law_processes.specs.Replicas.{ReplicasAgree};
ghost use Rattle.world_model.specs.Faithful.{IsFaithful};
ghost use Rattle.world_model.specs.Packets.{world_group};
ghost use Rattle.law_processes.specs.Deployments.{IsPlayed};
ghost use Rattle.world.specs.NodeStates.{deployment_of};
ghost use Rattle.world.specs.Worlds.{shown, IsLonger};
ghost use Rattle.world.specs.Settles.{Settles, SettlesShort, EndsSettling, IsSettled};
ghost use Rattle.world.specs.LostInstalls.{BringsIn, BringsInShort, BringsAll, BringsShort};
ghost use Rattle.world.specs.LowProposals.{overtaking_at, Raises, RaisesShort, RaisesTwice, RaisesTwiceShort, OvertakesAndSettles, OvertakesShort};
ghost use Rattle.world.specs.Completing.{completing_at, most_events, Completes, CompletesShort, IsUntried};
ghost use Rattle.world.specs.Known.{MembersKnow};

use crate::{
    Rounds, World, awaited, awaits_install, begun, is_settling, overtaking, views_complete,
};
use address::{Address, Node};
use state_transfer::Receiver;
use std::alloc::AllocError;
use wire_values::Roster;
use world_model::WorldEvent;

impl<R: Receiver> World<R> {
    /// Plays the steps of a settling.
    fn bring_together(&mut self, node: Node) -> Result<(), AllocError>
        ensures ok { OnOk result (Settles R.meaning node (shown self.old) (shown self.new)) }
        ensures err { OnErr result (SettlesShort R.meaning node (shown self.old) (shown self.new)) }
    {
        let known = self.pool.count();
        self.play(&WorldEvent::Tick(node))?;
        let announced = self.pool.count();
        self.deliver_past(known)?;
        let reported = self.pool.count();
        self.deliver_past(announced)?;
        let last = self
            .pool
            .count()
            .saturating_sub(begun(&self.node_states, node));
        self.deliver_between(reported, last)
    }

    /// Plays the steps that bring one member into a view of which it awaits the INSTALL.
    fn bring_in(&mut self, address: Address) -> Result<(), AllocError>
        ensures ok { OnOk result (BringsIn R.meaning address (shown self.old) (shown self.new)) }
        ensures err { OnErr result (BringsInShort R.meaning address (shown self.old) (shown self.new)) }
    {
        self.play(&WorldEvent::Tick(address.node()))?;
        let asked = self.pool.count();
        self.play(&WorldEvent::Deliver(asked))?;
        self.deliver_past(asked)
    }

    /// The same for each member of the view of the member at a node.
    fn bring_in_all(&mut self, node: Node, view: &Roster) -> Result<(), AllocError>
        ensures ok { OnOk result (BringsAll R.meaning node view.now (shown self.old) view.now.members (shown self.new)) }
        ensures err { OnErr result (BringsShort R.meaning node view.now (shown self.old) (shown self.new)) }
    {
        for address in view.members().as_slice() {
            if awaits_install(&self.node_states, node, view, *address) {
                self.bring_in(*address)?;
            }
        }
        Ok(())
    }

    /// Plays the steps of a round that asks an address.
    fn raise(&mut self, node: Node, asked: Address) -> Result<(), AllocError>
        ensures ok { OnOk result (Raises R.meaning node asked (shown self.old) (shown self.new)) }
        ensures err { OnErr result (RaisesShort R.meaning node asked (shown self.old) (shown self.new)) }
    {
        let known = self.pool.count();
        self.play(&WorldEvent::Tick(node))?;
        let flush = self.pool.first_for(asked, known);
        self.hand(flush)?;
        let behind = self.pool.count();
        self.play(&WorldEvent::Deliver(behind))
    }

    /// Plays one round, and the second if there is one.
    fn raise_twice(&mut self, node: Node, rounds: &Rounds) -> Result<(), AllocError>
        ensures ok { OnOk result (RaisesTwice R.meaning node rounds.now.first rounds.now.second (shown self.old) (shown self.new)) }
        ensures err { OnErr result (RaisesTwiceShort R.meaning node rounds.now.first rounds.now.second (shown self.old) (shown self.new)) }
    {
        self.raise(node, rounds.first)?;
        match rounds.second {
            None => Ok(()),
            Some(asked) => self.raise(node, asked),
        }
    }

    /// Plays the steps that complete a change of view, by rounds that raise its proposal; says whether one can complete by these.
    fn overtake(&mut self, node: Node) -> Result<bool, AllocError>
        ensures answer { IfOk result (λ b. b ≡ is_some (overtaking_at (shown self.old).node_states node)) }
        ensures nothing { result ≡ Ok false → shown self.new ≡ shown self.old }
        ensures plays { OnOk result (ForSome (overtaking_at (shown self.old).node_states node) (λ v. OvertakesAndSettles R.meaning node (shown self.old) (shown self.new))) }
        ensures stops { OnErr result ((shown self.new ≡ shown self.old) ⊎ IsSomeAnd (overtaking_at (shown self.old).node_states node) (λ v. OvertakesShort R.meaning node (shown self.old) (shown self.new))) }
    {
        let Some(rounds) = overtaking(&self.node_states, node)? else {
            return Ok(false);
        };
        self.raise_twice(node, &rounds)?;
        self.bring_together(node)?;
        Ok(true)
    }

    /// Plays the steps that complete a change of view, by a flush that goes on, by INSTALLs that were lost, or by rounds; says whether one can complete.
    fn complete(&mut self, node: Node) -> Result<bool, AllocError>
        ensures answer { IfOk result (λ b. b ≡ is_some (completing_at (shown self.old).node_states node)) }
        ensures nothing { result ≡ Ok false → shown self.new ≡ shown self.old }
        ensures plays { OnOk result (ForSome (completing_at (shown self.old).node_states node) (λ v. Completes R.meaning node v (shown self.old) (shown self.new))) }
        ensures stops { OnErr result (IsUntried node (shown self.old) (shown self.new) ⊎ IsSomeAnd (completing_at (shown self.old).node_states node) (λ v. CompletesShort R.meaning node v (shown self.old) (shown self.new))) }
    {
        if is_settling(&self.node_states, node) {
            self.bring_together(node)?;
            return Ok(true);
        }
        let Some(view) = awaited(&self.node_states, node) else {
            return self.overtake(node);
        };
        self.bring_in_all(node, &view)?;
        Ok(true)
    }

    /// Completes the change of view of the member at a node (docs/GUARANTEES.md, "Views settle"), in the first of three ways that can be.
    ///
    /// - A flush of its own goes on: a tick of it, then a delivery of each FLUSH that it sends, of each REPORT that answers one, and of each STATE and INSTALL that
    ///   it sends by the last of these.
    /// - It made its view, and others of the view are not in it yet: for each of these a tick of it, then a delivery of its REPORT, and of each STATE and INSTALL
    ///   that is sent again by that.
    /// - A flush of its own is too low for one of its list: a tick of it, then a delivery of the FLUSH for that one and of its BEHIND, which begin the flush anew;
    ///   the same once more, if one of the new list has promised past that too; then as in the first way.
    ///
    /// At most 526 events, six more in the third way, like those that `run` is given. Answers true then, and all members of the view run and have it as their
    /// current view.
    ///
    /// Answers false, and does nothing, unless one of these can be: the member has a flush of its own that awaits somebody, and each of its list runs, is
    /// joining or in a view, has promised no greater proposal and did not install this one; or each of its view runs, and is in it, or was sent an INSTALL of
    /// it and is as said, and one is not in it; or each of its candidates runs, is joining or in a view, one of them has promised past its flush and has not
    /// reported, and a counter is left past all that they have promised. Answers an error (7) if the places of a step are refused, which is then not begun, and
    /// if memory is refused to one of the list or view in a step, by which it crashes; the steps before it are carried out. In the third way also where memory is
    /// refused before the first step: then nothing is done.
    pub fn settle(&mut self, node: Node) -> Result<bool, AllocError>
        // It answers whether the change can complete; where it cannot, nothing is done.
        ensures answer { IfOk result (λ b. b ≡ is_some (completing_at (shown self.old).node_states node)) }
        ensures nothing { result ≡ Ok false → shown self.new ≡ shown self.old }
        // Else these steps are played, few of them, and all members of the view run and are in it;
        ensures plays { OnOk result (ForSome (completing_at (shown self.old).node_states node) (λ v. Completes R.meaning node v (shown self.old) (shown self.new))) }
        ensures brief { OnOk result (length self.new.history.events ≤ length self.old.history.events + most_events (shown self.old).node_states node) }
        ensures settled { OnOk result (ForSome (completing_at (shown self.old).node_states node) (λ v. IsSettled v self.new.history.trace)) }
        // or a beginning of them, and then one of the view's members has crashed for want of memory, or a step was not begun and all of them run; or it lacked
        // memory to look for rounds, and nothing is done.
        ensures stops { OnErr result (IsUntried node (shown self.old) (shown self.new) ⊎ IsSomeAnd (completing_at (shown self.old).node_states node) (λ v. CompletesShort R.meaning node v (shown self.old) (shown self.new))) }
        ensures ends { OnErr result (IsUntried node (shown self.old) (shown self.new) ⊎ IsSomeAnd (completing_at (shown self.old).node_states node) (λ v. EndsSettling v (shown self.new))) }
        // What was there is the beginning of what is there; it is a deployment that was played, all rules hold, copies agree, and members know what the trace
        // says, as after `run`.
        ensures longer { IsLonger self.old.history self.new.history }
        ensures deployed { IsPlayed R.meaning world_group (deployment_of (shown self.new).node_states self.new.history.pool self.new.history.trace) }
        ensures faithful { IsFaithful self.new.history }
        ensures ordered { EachPlace IsWellOrdered self.new.history.trace }
        ensures synchronous { IsVirtuallySynchronous R.meaning self.new.history.trace }
        ensures agreeing { EachPlace (ReplicasAgree R.meaning) self.new.history.trace }
        ensures known { MembersKnow R.meaning (shown self.new) }
    {
        let _ = &self.trace;
        views_complete::<R>();
        let completed = self.complete(node);
        self.kept();
        completed
    }
}
