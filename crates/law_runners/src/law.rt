ghost use Rattle.law_runners.specs.Known.{ReceiversAgree, RunnersAgree, RunnersKnow};
ghost use Rattle.law_runners.specs.Merged.{RunnersAreSynchronous, RunnersTellAll};
ghost use Rattle.law_runners.specs.Runs.{CallsAddItems, RunsAreProcesses};
ghost use Rattle.law_runners.specs.Systems.{PlayedAreHistories, PlayedAreSeen, PlayedTellNoStart, PlayedTellOwn};

use law_processes::deployments_are_synchronous;
use state_transfer::Receiver;
use udp_net::Net;

/// The law of runners: n runners, each over a net that lists, every datagram that a net gave one that was offered before to one of them or no packet of the group, no address
/// started twice: what their channels told is virtually synchronous, in every order that agrees with what was offered before it was given (docs/PROOF.md, "Processes").
///
/// Each call of a runner adds items, by its contract alone: what happened at its net, exactly as that lists it, and steps of its process, in one order, in which a
/// datagram is handed in right after the net gave it, and what is offered is the first of what was put out before and waits. So its start, and all that a runner does since its
/// channel was new, is a process; what its channel told is what the steps tell, and it crashed where the channel ended other than by a leave. Where such processes stand in one
/// order, and the network gave only what was offered before, what happened keeps all eight rules at every place; what the channels told of it is all but starts and crashes.
///
/// There, after any call or round, a channel shows its receiver in the state that the trace gives, and what it knows to be stable each member of its view has delivered. So two
/// processes that have delivered as much of a view show receivers in the same state. And what one hand does that starts processes, drives their runners one at a time and lets them
/// go is such an order; where all nets list, the order of what happened at them is the one that the hand saw. What is taken of what a channel tells is no start, and happens to the
/// member of its address. For every receiver that keeps the laws. It does nothing.
pub fn runners_are_synchronous<N: Net, R: Receiver>()
    ensures calls { CallsAddItems N.log N.failed R.meaning }
    ensures runs { RunsAreProcesses N.log N.failed R.meaning }
    ensures merged { RunnersAreSynchronous R.meaning }
    ensures told { RunnersTellAll R.meaning }
    ensures agreeing { RunnersAgree R.meaning }
    ensures known { RunnersKnow R.meaning }
    ensures level { ReceiversAgree R.meaning }
    ensures seen { PlayedAreSeen N.log N.failed R.meaning }
    ensures played { PlayedAreHistories N.log N.failed R.meaning }
    ensures starts { PlayedTellNoStart N.log N.failed R.meaning }
    ensures own { PlayedTellOwn N.log N.failed R.meaning }
{
    deployments_are_synchronous::<R>();
}
