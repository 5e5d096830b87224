ghost use Rattle.frames.specs.Lives.{LivesAreOfFrames};

use udp_net::Net;

/// The law of nets of frames (docs/PROOF.md, "Processes"): whatever calls of `send`, `flush`, `wait` and `receive` follow `FramedNet::new`, what a net of frames gives came before in sealed
/// frames that the net below gave, and what it offers that net are frames that carry packets that it was offered before. It does nothing.
pub fn lives_are_of_frames<N: Net>()
    ensures { LivesAreOfFrames N.log }
{}
