//! Commands from bytes, in one pass.

ghost use Rattle.big_endian.specs.Reading.{IsReadOrNone};
ghost use Rattle.keyed_state.specs.Spelling.{token_at};
ghost use Rattle.replicated_map.specs.Values.{value_at};
ghost use Rattle.replicated_map.specs.Commands.{expected_at, pair_at, put_at, replace_at, replace_version_at, remove_version_at, command_at};

use crate::{Command, VALUE, ValueBytes, Version};
use big_endian::Reader;
use keyed_state::{KeyBytes, key_from, token_from, view_id_from};

#[tactic(auto, unfolding(big_endian::specs::Reading::sized_at))]
pub(crate) fn value_from<'a>(from: &mut Reader<'a>) -> Option<ValueBytes<'a>>
    ensures { IsReadOrNone (λ x. (x, from.new)) result (value_at from.old) }
{
    let len = from.u16(0, VALUE as u16)?;
    ValueBytes::new(from.bytes(usize::from(len))?)
}

#[tactic(auto, unfolding(crate::specs::Commands::expected_at))]
fn expected_from<'a>(from: &mut Reader<'a>) -> Option<Option<ValueBytes<'a>>>
    ensures { IsReadOrNone (λ x. (x, from.new)) result (expected_at from.old) }
{
    let flag = from.u8(0, 1)?;
    if flag == 0 {
        return Some(None);
    }
    let value = value_from(from)?;
    Some(Some(value))
}

// A version that a command names.
fn version_from(from: &mut Reader<'_>) -> Option<Version>
    ensures { IsReadOrNone (λ x. (x, from.new)) result (token_at from.old) }
{
    let token = token_from(from)?;
    Version::new(token)
}

// A key and its new value.
fn pair_from<'a>(from: &mut Reader<'a>) -> Option<(KeyBytes<'a>, ValueBytes<'a>)>
    ensures { IsReadOrNone (λ x. (x, from.new)) result (pair_at from.old) }
{
    let key = key_from(from)?;
    let value = value_from(from)?;
    Some((key, value))
}

#[tactic(auto, unfolding(crate::specs::Commands::put_at))]
fn put_from<'a>(from: &mut Reader<'a>) -> Option<Command<'a>>
    ensures { IsReadOrNone (λ x. (x, from.new)) result (put_at from.old) }
{
    let view = view_id_from(from)?;
    let (key, value) = pair_from(from)?;
    Some(Command::Put { view, key, value })
}

#[tactic(auto, unfolding(crate::specs::Commands::replace_at))]
fn replace_from<'a>(from: &mut Reader<'a>) -> Option<Command<'a>>
    ensures { IsReadOrNone (λ x. (x, from.new)) result (replace_at from.old) }
{
    let view = view_id_from(from)?;
    let expected = expected_from(from)?;
    let (key, value) = pair_from(from)?;
    Some(Command::Replace {
        view,
        expected,
        key,
        value,
    })
}

#[tactic(auto, unfolding(crate::specs::Commands::replace_version_at))]
fn replace_at_from<'a>(from: &mut Reader<'a>) -> Option<Command<'a>>
    ensures { IsReadOrNone (λ x. (x, from.new)) result (replace_version_at from.old) }
{
    let view = view_id_from(from)?;
    let version = version_from(from)?;
    let (key, value) = pair_from(from)?;
    Some(Command::ReplaceAt {
        view,
        version,
        key,
        value,
    })
}

#[tactic(auto, unfolding(crate::specs::Commands::remove_version_at))]
fn remove_at_from<'a>(from: &mut Reader<'a>) -> Option<Command<'a>>
    ensures { IsReadOrNone (λ x. (x, from.new)) result (remove_version_at from.old) }
{
    let version = version_from(from)?;
    let key = key_from(from)?;
    Some(Command::RemoveAt { version, key })
}

// The command that bytes begin with.
#[tactic(auto, unfolding(crate::specs::Commands::command_at))]
pub(crate) fn command_from<'a>(from: &mut Reader<'a>) -> Option<Command<'a>>
    ensures { IsReadOrNone (λ x. (x, from.new)) result (command_at from.old) }
{
    let kind = from.u8(1, 6)?;
    if kind == 1 {
        return put_from(from);
    }
    if kind == 2 {
        let key = key_from(from)?;
        return Some(Command::Remove(key));
    }
    if kind == 3 {
        return replace_from(from);
    }
    if kind == 4 {
        return Some(Command::Clear);
    }
    if kind == 5 {
        return replace_at_from(from);
    }
    remove_at_from(from)
}
