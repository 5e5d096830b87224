ghost use Rattle.law_acts.specs.Known.{StableStays};
ghost use Rattle.law_processes.specs.Carried.{CoordinatorsKeepTheirs, DeliverShort};
ghost use Rattle.law_processes.specs.Known.{CopiesAgree, MembersKnow, NeverClosed, ProcessesAgree};
ghost use Rattle.law_processes.specs.Law.{AreSynchronous, MergedAreSynchronous, TellAll};

use crate::replicas_agree;
use state_transfer::Receiver;

/// The law of deployments: whatever processes do by the contract of their members, in whatever order, what happened keeps all eight rules at every place, as long as
/// no address is started twice, and each datagram that is handed to a member was put out before, byte for byte, or spells no packet of the group (docs/GUARANTEES.md, "Processes").
/// It is the same where of each address only its own steps are known to be a process. What the members tell is what happened, but starts and crashes, in its order.
///
/// What a member that runs knows is what the trace says: the state of its receiver, its view, how much of it it delivered; and each member of its view has delivered what it knows
/// to be stable, for ever. So two processes in one view that have delivered as much of it have receivers in the same state. And no member that runs is closed by what it is handed:
/// each state that it is given can be read. What is delivered is short, and an address sent it; and the coordinator of a view enters it with its own state. For every receiver that keeps the laws. It does nothing.
pub fn deployments_are_synchronous<R: Receiver>()
    ensures histories { AreSynchronous R.meaning }
    ensures processes { MergedAreSynchronous R.meaning }
    ensures told { TellAll R.meaning }
    ensures agreeing { CopiesAgree R.meaning }
    ensures known { MembersKnow R.meaning }
    ensures level { ProcessesAgree R.meaning }
    ensures stable { StableStays }
    ensures open { NeverClosed R.meaning }
    ensures short { DeliverShort R.meaning }
    ensures own { CoordinatorsKeepTheirs R.meaning }
{
    replicas_agree::<R>();
}
