ghost use Rattle.std.specs.Prelude.{◌≡◌};
ghost use Rattle.member.specs.Errors.{number_of, stopped};
ghost use Rattle.member.specs.declared.error.Error.TheVariants as error;
ghost use Rattle.address.specs.declared.refusal.Refusal.TheVariants as refusal;

use address::limits::Refusal;
use membership::Stop;
use std::alloc::AllocError;
use wire_values::WireError;

/// Why a member refused an input, and a channel a call (docs/PROTOCOL.md, "Inputs and refusals"; docs/CLI.md, "Refusals"; docs/WIRE.md,
/// "Reading, and which refusal comes first"). After 6 and 7 it has ended; after any other it is as before.
#[derive(Clone, Copy, Debug, PartialEq, Eq, thiserror::Error)]
pub enum Error {
    /// 1, 2, 3, 4 and 8: at a Send. 5: at a Create or a Join. 6: it has ended, before this input, or by it: it would enter a view by an INSTALL whose state
    /// its receiver cannot read. 7: memory was refused, and it has ended; what this step would have put out is dropped. 9: a channel alone answers it.
    #[error(transparent)]
    Refused(Refusal),
    /// 20 to 26: at a Datagram, the bytes spell no packet.
    #[error("the bytes spell no packet")]
    Wire(WireError),
}

impl From<AllocError> for Error {
    ghost from_gives = { λ _ e. e ≡ error.Refused refusal.Memory };

    fn from(_refused: AllocError) -> Error {
        Error::Refused(Refusal::Memory)
    }
}

impl From<Stop> for Error {
    ghost from_gives = { λ s e. e ≡ error.Refused (stopped s) };

    fn from(stop: Stop) -> Error {
        match stop {
            Stop::Memory => Error::Refused(Refusal::Memory),
            Stop::Unreadable => Error::Refused(Refusal::Closed),
        }
    }
}

impl Error {
    /// Its number: 1 to 9, or 20 to 26 for bytes that spell no packet.
    pub fn number(self) -> u8
        ensures { result ≡ number_of self }
    {
        match self {
            Error::Refused(refusal) => refusal.number(),
            Error::Wire(refusal) => refusal.number(),
        }
    }
}
