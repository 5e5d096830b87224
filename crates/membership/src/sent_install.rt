ghost use Rattle.std.specs.Prelude.{◌≡◌, IfOk};

use std::alloc::{AllocError, Global};
use step_output::Outgoing;

/// An INSTALL that a member put out for another of the view that it made, and whether the state that it gives goes in chunks.
#[derive(Drop)]
pub struct SentInstall {
    pub packet: Outgoing,
    pub in_chunks: bool,
}

// A copy of a packet.
pub(crate) fn copied(alloc: Global, packet: &Outgoing) -> Result<Outgoing, AllocError>
    ensures { IfOk result (λ p. p ≡ packet.now) }
{
    Ok(Outgoing {
        destination: packet.destination,
        bytes: packet.bytes.copied(alloc)?,
    })
}
