//! The words of the map's commands (docs/RECEIVERS.md, "The map's lines").

ghost use Rattle.std.specs.Prelude.{◌≡◌, Ok, Err, MatchResult};
ghost use Rattle.std.specs.Option.{option_copied};
ghost use Rattle.replicated_map.specs.Words.{expected_field, version_field, last_value, put_said, replace_said, replace_at_said, remove_at_said, command_said};

use crate::{Command, ValueBytes, Version};
use address::ViewId;
use keyed_state::{key_field, last_key, token_in};
use vsync_text::{Fault, first_field, is_word};

// The next field as an expected value, `-` for none, and what is left behind it.
#[tactic(auto, unfolding(vsync_text::specs::Fields::spelled_at, vsync_text::specs::Fields::field_at))]
fn expected_field(rest: Option<&[u8]>) -> Result<(Option<ValueBytes<'_>>, Option<&[u8]>), Fault>
    ensures { MatchResult result
        (λ read. expected_field (option_copied rest.entry) ≡ Ok (read.0, option_copied read.1))
        (λ f. expected_field (option_copied rest.entry) ≡ Err f) }
{
    let Some(text) = rest else {
        return Err(Fault::MissingField);
    };
    let (field, rest) = first_field(text);
    if is_word(field, b"-") {
        return Ok((None, rest));
    }
    match ValueBytes::new(field) {
        None => Err(Fault::BadNumber),
        Some(value) => Ok((Some(value), rest)),
    }
}

// The next field as a version, and what is left behind it.
#[tactic(auto, unfolding(vsync_text::specs::Fields::spelled_at, vsync_text::specs::Fields::field_at))]
fn version_field(rest: Option<&[u8]>) -> Result<(Version, Option<&[u8]>), Fault>
    ensures { MatchResult result
        (λ read. version_field (option_copied rest.entry) ≡ Ok (read.0, option_copied read.1))
        (λ f. version_field (option_copied rest.entry) ≡ Err f) }
{
    let Some(text) = rest else {
        return Err(Fault::MissingField);
    };
    let (field, rest) = first_field(text);
    let Some(token) = token_in(field) else {
        return Err(Fault::BadNumber);
    };
    match Version::new(token) {
        None => unreachable!(),
        Some(version) => Ok((version, rest)),
    }
}

// The value with which a command ends: all that is left of it.
fn last_value(rest: Option<&[u8]>) -> Result<ValueBytes<'_>, Fault>
    ensures { MatchResult result
        (λ value. last_value (option_copied rest.entry) ≡ Ok value)
        (λ f. last_value (option_copied rest.entry) ≡ Err f) }
{
    let Some(text) = rest else {
        return Err(Fault::MissingField);
    };
    match ValueBytes::new(text) {
        None => Err(Fault::BadNumber),
        Some(value) => Ok(value),
    }
}

// The command `put KEY VALUE`.
fn put_said(view: ViewId, rest: Option<&[u8]>) -> Result<Command<'_>, Fault>
    ensures { MatchResult result (λ c. put_said view (option_copied rest.entry) ≡ Ok c) (λ f. put_said view (option_copied rest.entry) ≡ Err f) }
{
    match key_field(rest) {
        Err(fault) => Err(fault),
        Ok((key, rest)) => match last_value(rest) {
            Err(fault) => Err(fault),
            Ok(value) => Ok(Command::Put { view, key, value }),
        },
    }
}

// The command `replace KEY OLD NEW`.
fn replace_said(view: ViewId, rest: Option<&[u8]>) -> Result<Command<'_>, Fault>
    ensures { MatchResult result (λ c. replace_said view (option_copied rest.entry) ≡ Ok c) (λ f. replace_said view (option_copied rest.entry) ≡ Err f) }
{
    match key_field(rest) {
        Err(fault) => Err(fault),
        Ok((key, rest)) => match expected_field(rest) {
            Err(fault) => Err(fault),
            Ok((expected, rest)) => match last_value(rest) {
                Err(fault) => Err(fault),
                Ok(value) => Ok(Command::Replace {
                    view,
                    expected,
                    key,
                    value,
                }),
            },
        },
    }
}

// The command `replace_at KEY VERSION NEW`.
fn replace_at_said(view: ViewId, rest: Option<&[u8]>) -> Result<Command<'_>, Fault>
    ensures { MatchResult result (λ c. replace_at_said view (option_copied rest.entry) ≡ Ok c) (λ f. replace_at_said view (option_copied rest.entry) ≡ Err f) }
{
    match key_field(rest) {
        Err(fault) => Err(fault),
        Ok((key, rest)) => match version_field(rest) {
            Err(fault) => Err(fault),
            Ok((version, rest)) => match last_value(rest) {
                Err(fault) => Err(fault),
                Ok(value) => Ok(Command::ReplaceAt {
                    view,
                    version,
                    key,
                    value,
                }),
            },
        },
    }
}

// The command `remove_at KEY VERSION`.
#[tactic(auto, unfolding(vsync_text::specs::Fields::last, vsync_text::specs::Fields::end_at))]
fn remove_at_said(rest: Option<&[u8]>) -> Result<Command<'_>, Fault>
    ensures { MatchResult result (λ c. remove_at_said (option_copied rest.entry) ≡ Ok c) (λ f. remove_at_said (option_copied rest.entry) ≡ Err f) }
{
    match key_field(rest) {
        Err(fault) => Err(fault),
        Ok((key, rest)) => match version_field(rest) {
            Err(fault) => Err(fault),
            Ok((version, None)) => Ok(Command::RemoveAt { version, key }),
            Ok(_) => Err(Fault::BadNumber),
        },
    }
}

// The command that a text says in the view of an id.
#[tactic(auto, unfolding(vsync_text::specs::Fields::end_at))]
pub(crate) fn command_said(view: ViewId, text: &[u8]) -> Result<Command<'_>, Fault>
    ensures { MatchResult result (λ c. command_said view text.now ≡ Ok c) (λ f. command_said view text.now ≡ Err f) }
{
    let (word, rest) = first_field(text);
    if is_word(word, b"put") {
        put_said(view, rest)
    } else if is_word(word, b"remove") {
        match last_key(rest) {
            Err(fault) => Err(fault),
            Ok(key) => Ok(Command::Remove(key)),
        }
    } else if is_word(word, b"replace") {
        replace_said(view, rest)
    } else if is_word(word, b"clear") {
        match rest {
            None => Ok(Command::Clear),
            Some(_) => Err(Fault::BadNumber),
        }
    } else if is_word(word, b"replace_at") {
        replace_at_said(view, rest)
    } else if is_word(word, b"remove_at") {
        remove_at_said(rest)
    } else {
        Err(Fault::BadNumber)
    }
}
