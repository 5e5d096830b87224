//! Keys as fields of a line.

ghost use Rattle.std.specs.Prelude.{◌≡◌, Ok, Err, MatchResult};
ghost use Rattle.std.specs.Option.{option_copied};
ghost use Rattle.vsync_text.specs.Fields.{last};
ghost use Rattle.keyed_state.specs.Words.{key_field};

use crate::KeyBytes;
use vsync_text::{Fault, first_field};

/// The next field of a line as a key, and what is left behind it.
///
/// # Errors
///
/// 42 where no field is left, 41 where it is empty or has more than `KEY` bytes.
#[tactic(auto, unfolding(vsync_text::specs::Fields::spelled_at, vsync_text::specs::Fields::field_at))]
pub fn key_field(rest: Option<&[u8]>) -> Result<(KeyBytes<'_>, Option<&[u8]>), Fault>
    ensures { MatchResult result
        (λ read. key_field (option_copied rest.entry) ≡ Ok (read.0, option_copied read.1))
        (λ f. key_field (option_copied rest.entry) ≡ Err f) }
{
    let Some(text) = rest else {
        return Err(Fault::MissingField);
    };
    let (field, rest) = first_field(text);
    match KeyBytes::new(field) {
        None => Err(Fault::BadNumber),
        Some(key) => Ok((key, rest)),
    }
}

/// The key with which a line ends.
///
/// # Errors
///
/// Those of `key_field`; and 41 where more follows.
#[tactic(auto, unfolding(vsync_text::specs::Fields::last, vsync_text::specs::Fields::end_at))]
pub fn last_key(rest: Option<&[u8]>) -> Result<KeyBytes<'_>, Fault>
    ensures { MatchResult result
        (λ key. last (key_field (option_copied rest.entry)) ≡ Ok key)
        (λ f. last (key_field (option_copied rest.entry)) ≡ Err f) }
{
    match key_field(rest) {
        Ok((key, None)) => Ok(key),
        Ok(_) => Err(Fault::BadNumber),
        Err(fault) => Err(fault),
    }
}
