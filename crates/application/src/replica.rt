//! Receivers that lose nothing when memory is refused.

ghost use Rattle.std.specs.Prelude.{◌≡◌, OnOk, OnErr, unwrap_or};

use address::Address;
use state_transfer::Receiver;
use std::alloc::AllocError;

/// A receiver that takes messages of any length, and is as before after `AllocError` (7).
pub trait Replica: Receiver {
    /// Applies a message. After `AllocError` (7) it is as before.
    fn apply(&mut self, from: Address, payload: &[u8]) -> Result<(), AllocError>
        ensures ok { OnOk result (self.new ≡ Self.meaning.apply self.old from payload.now) }
        ensures err { OnErr result (self.new ≡ self.old) };

    /// Takes the state that bytes stand for; keeps its own if they stand for none. After `AllocError` (7) it is as before.
    fn restore(&mut self, state: &[u8]) -> Result<(), AllocError>
        ensures ok { OnOk result (self.new ≡ unwrap_or (Self.meaning.decode state.now) self.old) }
        ensures err { OnErr result (self.new ≡ self.old) };
}
