ghost use Rattle.law_runners.specs.KnownOfChannels.{ChannelsKnow};
ghost use Rattle.law_runners.specs.Plays.{CallsAreSteps, CreatesAreSteps, JoinsAreSteps, LentCallsAreSteps};

use law_processes::deployments_are_synchronous;
use state_transfer::Receiver;

/// Each call of a channel, by the contract of `channel::Channel`, is one step of its process where its member runs, and none where it was never connected or has ended: a call
/// of the member with this input, or, where room was refused for what that put out, the end of the process (docs/PROOF.md, "Processes"). A connect is a start before that, of a
/// member of the group that it names; its receiver must be in its opening state. What waits in the channel, packets and events, is what waited and what these steps put out and
/// tell.
///
/// In a history a channel whose member runs knows itself: its receiver is in the state that the trace gives, its view is the trace's, and what it knows to be stable each member of
/// its view has delivered. It does nothing.
pub fn calls_are_steps<R: Receiver>()
    ensures calls { CallsAreSteps R.meaning }
    ensures lent { LentCallsAreSteps R.meaning }
    ensures creates { CreatesAreSteps R.meaning }
    ensures joins { JoinsAreSteps R.meaning }
    ensures known { ChannelsKnow R.meaning }
{
    deployments_are_synchronous::<R>();
}
