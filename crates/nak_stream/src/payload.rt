ghost use Rattle.std.specs.Prelude.{◌≡◌, ◌<◌, ◌≤◌, length, IfOk, OnOk, OnErr};
ghost use Rattle.address.specs.declared.limits.TheConstants.{PAYLOAD};

use address::Bytes;
use std::alloc::{AllocError, Global};
use std::marker::Model;
use wire_values::Payload;

/// A message's payload that is kept: at most `PAYLOAD` bytes, which all that keep it share.
#[derive(Drop)]
pub struct OwnedPayload {
    bytes: Bytes,
}

impl Model for OwnedPayload {
    ghost use Rattle.std.specs.Prelude.{List, ℕ, length, ◌≤◌};
    ghost use Rattle.address.specs.declared.limits.TheConstants.{PAYLOAD};

    ghost Value = { List ℕ };

    ghost view = { λ p. p.bytes };

    ghost invariant = { λ p. length p.bytes ≤ PAYLOAD };
}

impl OwnedPayload {
    /// A copy of a payload. An empty one takes no memory.
    pub fn copy_of(alloc: Global, payload: &Payload<'_>) -> Result<OwnedPayload, AllocError>
        ensures value { IfOk result (λ kept. kept ≡ payload.now) }
        ensures err { OnErr result (0 < length payload.now) }
    {
        let lent = payload.as_slice();
        if lent.is_empty() {
            let bytes = Bytes::from_vec(Vec::new(alloc));
            return Ok(OwnedPayload { bytes });
        }
        let bytes = Bytes::shared_from(alloc, lent)?;
        Ok(OwnedPayload { bytes })
    }

    /// It, kept once more: its bytes are shared, and not copied.
    pub fn shared(&self, alloc: Global) -> Result<OwnedPayload, AllocError>
        ensures { IfOk result (λ kept. kept ≡ self.now) }
    {
        let bytes = self.bytes.copied(alloc)?;
        Ok(OwnedPayload { bytes })
    }

    /// Its bytes, shared, and not copied.
    pub fn bytes(&self, alloc: Global) -> Result<Bytes, AllocError>
        ensures bytes { IfOk result (λ bytes. bytes ≡ self.now) }
        ensures short { OnOk result (length self.now ≤ PAYLOAD) }
    {
        self.bytes.copied(alloc)
    }

    /// It, lent as packets carry it. Takes no memory.
    pub fn lent(&self) -> Payload<'_>
        ensures { result ≡ self.now }
    {
        match Payload::new(self.bytes.as_slice()) {
            Some(payload) => payload,
            None => unreachable!(),
        }
    }
}
