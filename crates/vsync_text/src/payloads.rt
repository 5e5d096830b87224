ghost use Rattle.std.specs.Prelude.{ℕ, List, Result};
ghost use Rattle.vsync_text.specs.declared.fault.Fault.{Fault as FaultValue};
ghost use Rattle.vsync_text.specs.Texts.{IsReadUnlessRefused};

use crate::Unheard;
use address::Bytes;
use std::alloc::Global;

/// How the text of a `send` says the payload that is sent (docs/FORMATS.md, "Script text").
pub trait Payloads {
    /// The payload that a text says, or what is wrong with the text.
    ghost payload_of: { List ℕ → Result (List ℕ) FaultValue };

    /// The payload that a text says.
    ///
    /// # Errors
    ///
    /// What is wrong with the text: a part of it is missing (42), or is not of its form (41). Or memory was refused.
    fn payload(alloc: Global, text: &[u8]) -> Result<Bytes, Unheard>
        ensures { IsReadUnlessRefused (λ x. x) result (payload_of text.now) };
}

/// Payloads that are the text as it stands: any bytes, perhaps none.
#[derive(Drop)]
pub struct AsWritten;

impl Payloads for AsWritten {
    ghost use Rattle.vsync_text.specs.Script.{as_written};

    ghost payload_of = { as_written };

    fn payload(alloc: Global, text: &[u8]) -> Result<Bytes, Unheard> {
        Ok(Bytes::from_slice(alloc, text)?)
    }
}
