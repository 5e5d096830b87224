//! The entries of a map: what a key has, and copies.

ghost use Rattle.std.specs.Prelude.{◌≡◌, IfOk};
ghost use Rattle.keyed_state.specs.Entries.{entry_of};
ghost use Rattle.replicated_map.specs.Entries.{held};

use crate::ValueBytes;
use crate::decoding::value_from;
use crate::encoding::put_value;
use address::Bytes;
use big_endian::Reader;
use keyed_state::{Kept, KeyBytes, KeyedEntry, Token, put_token, token_from};
use std::alloc::{AllocError, Global};

/// What a key has: a value, and the version that it was given with.
#[derive(Drop)]
pub struct Held {
    /// A token above those of all values that were given before.
    pub version: Token,
    /// The value.
    pub value: Bytes,
}

impl Kept for Held {
    ghost use Rattle.replicated_map.specs.Values.{held_form};
    ghost use Rattle.replicated_map.specs.EncodingLaws.{held_laws};

    ghost form = { held_form };

    ghost laws = { held_laws };

    fn token(&self) -> Token {
        self.version
    }

    fn size(&self) -> usize {
        24 + self.value.as_slice().len()
    }

    fn put(&self, out: &mut Vec<u8>) {
        put_token(self.version, out);
        put_value(self.value.as_slice(), out);
    }

    #[tactic(auto, unfolding(crate::specs::Values::held_at))]
    fn read(alloc: Global, from: &mut Reader<'_>) -> Result<Option<Held>, AllocError> {
        let Some(version) = token_from(from) else {
            return Ok(None);
        };
        let Some(value) = value_from(from) else {
            return Ok(None);
        };
        let value = Bytes::from_slice(alloc, value.as_slice())?;
        Ok(Some(Held { version, value }))
    }
}

// The entry of a copied key and value.
pub(crate) fn copied(
    alloc: Global,
    key: &KeyBytes<'_>,
    version: &Token,
    value: &ValueBytes<'_>,
) -> Result<KeyedEntry<Held>, AllocError>
    ensures { IfOk result (λ e. e ≡ entry_of key.now (held version.now value.now)) }
{
    let key = Bytes::from_slice(alloc, key.as_slice())?;
    let value = Bytes::from_slice(alloc, value.as_slice())?;
    let value = Held {
        version: *version,
        value,
    };
    Ok(KeyedEntry { key, value })
}
