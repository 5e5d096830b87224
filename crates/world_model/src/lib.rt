//! What a world of members can be given and what it answers, and when its history is faithful to that.
#![tactic(auto)]

ghost use Rattle.std.specs.Prelude.{◌≡◌, IfOk};
ghost use Rattle.world_model.specs.Histories.{target_of, starts};

use address::limits::Refusal;
use address::{Address, Bytes, Node};
use std::alloc::{AllocError, Global};

/// What a world is given to do (docs/GUARANTEES.md, "Faithful").
pub enum WorldEvent {
    /// The node's next incarnation begins to run.
    Start(Node),
    /// The node's member makes a group of itself alone.
    Create(Node),
    /// The node's member asks the contact to let it into its group.
    Join(Node, Address),
    /// The node's member sends a payload.
    Send(Node, Bytes),
    /// The packet of this number, from 1, is handed to the running member of its destination's node.
    Deliver(u64),
    /// Time passes for the node's member.
    Tick(Node),
    /// The failure detector of the node's member says that the member of the address has failed.
    Suspect(Node, Address),
    /// The node's member is given the hint that a member of another view may be reached at the address.
    MergeHint(Node, Address),
    /// The node's member leaves.
    Leave(Node),
    /// The node's member crashes.
    Crash(Node),
}

impl Drop for WorldEvent {
    fn drop(self) {
        match self {
            WorldEvent::Start(_) => {}
            WorldEvent::Create(_) => {}
            WorldEvent::Join(_, _) => {}
            WorldEvent::Send(_, _) => {}
            WorldEvent::Deliver(_) => {}
            WorldEvent::Tick(_) => {}
            WorldEvent::Suspect(_, _) => {}
            WorldEvent::MergeHint(_, _) => {}
            WorldEvent::Leave(_) => {}
            WorldEvent::Crash(_) => {}
        }
    }
}

/// Whom an event concerns.
#[derive(Clone, Copy)]
pub enum Target {
    /// The member of this node.
    Member(Node),
    /// The member that the packet of this number is for.
    Packet(u64),
}

impl WorldEvent {
    /// Whom it concerns.
    pub fn target(&self) -> Target
        ensures { result ≡ target_of self.now }
    {
        match self {
            WorldEvent::Start(node) => Target::Member(*node),
            WorldEvent::Create(node) => Target::Member(*node),
            WorldEvent::Join(node, _) => Target::Member(*node),
            WorldEvent::Send(node, _) => Target::Member(*node),
            WorldEvent::Deliver(number) => Target::Packet(*number),
            WorldEvent::Tick(node) => Target::Member(*node),
            WorldEvent::Suspect(node, _) => Target::Member(*node),
            WorldEvent::MergeHint(node, _) => Target::Member(*node),
            WorldEvent::Leave(node) => Target::Member(*node),
            WorldEvent::Crash(node) => Target::Member(*node),
        }
    }

    /// Whether it starts a member.
    pub fn is_start(&self) -> bool
        ensures { result ≡ starts self.now }
    {
        match self {
            WorldEvent::Start(_) => true,
            WorldEvent::Create(_) => false,
            WorldEvent::Join(_, _) => false,
            WorldEvent::Send(_, _) => false,
            WorldEvent::Deliver(_) => false,
            WorldEvent::Tick(_) => false,
            WorldEvent::Suspect(_, _) => false,
            WorldEvent::MergeHint(_, _) => false,
            WorldEvent::Leave(_) => false,
            WorldEvent::Crash(_) => false,
        }
    }

    /// A copy of it.
    pub fn copied(&self, alloc: Global) -> Result<WorldEvent, AllocError>
        ensures { IfOk result (λ e. e ≡ self.now) }
    {
        match self {
            WorldEvent::Start(node) => Ok(WorldEvent::Start(*node)),
            WorldEvent::Create(node) => Ok(WorldEvent::Create(*node)),
            WorldEvent::Join(node, contact) => Ok(WorldEvent::Join(*node, *contact)),
            WorldEvent::Send(node, payload) => Ok(WorldEvent::Send(*node, payload.copied(alloc)?)),
            WorldEvent::Deliver(number) => Ok(WorldEvent::Deliver(*number)),
            WorldEvent::Tick(node) => Ok(WorldEvent::Tick(*node)),
            WorldEvent::Suspect(node, address) => Ok(WorldEvent::Suspect(*node, *address)),
            WorldEvent::MergeHint(node, address) => Ok(WorldEvent::MergeHint(*node, *address)),
            WorldEvent::Leave(node) => Ok(WorldEvent::Leave(*node)),
            WorldEvent::Crash(node) => Ok(WorldEvent::Crash(*node)),
        }
    }
}

/// What an event is answered.
#[derive(Clone, Copy, PartialEq, Eq)]
pub enum Answer {
    /// It was done.
    Done,
    /// A message was sent under this number.
    Sent(u64),
    /// It was refused.
    Refused(Refusal),
}

/// The answer to a world event, and its place: how many events stand in the trace after it.
#[derive(Clone, Copy)]
pub struct Reply {
    pub answer: Answer,
    pub place: usize,
}
