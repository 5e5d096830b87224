ghost use Rattle.law_runners.specs.Sealed.{SealedAreMerged, SealedAreSynchronous};

use crate::runners_are_synchronous;
use frames::{FramedNet, lives_are_of_frames};
use state_transfer::Receiver;
use udp_net::Net;

/// The law of runners over nets of frames with one key (docs/PROOF.md, "Processes"): what happened is virtually synchronous, if each frame that a net below gave and that is sealed with
/// the key was offered before to a net below by one of the processes, no two of them have one boot id, and no address was started twice. Each net of frames is made by
/// `FramedNet::new`, and lives by its calls. What the runners did is then merged (`merged`), so that each clause of `runners_are_synchronous` is of it: what they know, and that their receivers
/// agree, too. Nothing is asked of what else the nets below give: whoever has not the key may send what they want. It does nothing.
pub fn sealed_runners_are_synchronous<N: Net, R: Receiver>()
    ensures merged { SealedAreMerged N.log R.meaning }
    ensures synchronous { SealedAreSynchronous N.log R.meaning }
{
    lives_are_of_frames::<N>();
    runners_are_synchronous::<FramedNet<N>, R>();
}
