ghost use Rattle.std.specs.Prelude.{◌≡◌};
ghost use Rattle.address.specs.Refusals.{number_of};

/// Why a call or an input is refused, for all crates (docs/PROTOCOL.md, "Inputs and refusals"; docs/CLI.md, "Refusals"). After 6 and 7 the member or
/// channel has ended; after any other it is as before.
#[derive(Clone, Copy, Debug, PartialEq, Eq, thiserror::Error)]
pub enum Refusal {
    /// 1: at a send, there is no view; at a node, none was ever started; at a channel, it was never connected.
    #[error("not connected")]
    NotConnected,
    /// 2: at a send, the member is blocked: it has promised a view that it has not installed.
    #[error("blocked until the next view")]
    Blocked,
    /// 3: at a send, `OUTSTANDING` of the member's messages in its view were not delivered to it yet.
    #[error("too many messages outstanding")]
    Busy,
    /// 4: at a send, the payload has more than `PAYLOAD` bytes.
    #[error("the payload is too long")]
    TooLong,
    /// 5: at a Create or a Join, the member has a view, or at a Create has asked to be let into one; at a start, one runs at the node.
    #[error("already connected")]
    AlreadyConnected,
    /// 6: it has ended, before this call or by it.
    #[error("closed")]
    Closed,
    /// 7: memory was refused.
    #[error("no memory")]
    Memory,
    /// 8: a number is used up.
    #[error("the numbers are used up")]
    Exhausted,
    /// 9: the bytes are no name of a group.
    #[error("no name of a group")]
    BadName,
}

impl Refusal {
    /// Its number, 1 to 9.
    pub fn number(self) -> u8
        ensures { result ≡ number_of self }
    {
        match self {
            Refusal::NotConnected => 1,
            Refusal::Blocked => 2,
            Refusal::Busy => 3,
            Refusal::TooLong => 4,
            Refusal::AlreadyConnected => 5,
            Refusal::Closed => 6,
            Refusal::Memory => 7,
            Refusal::Exhausted => 8,
            Refusal::BadName => 9,
        }
    }
}
