//! The words of the commands of the table of locks in a script (docs/RECEIVERS.md, "The locks' lines").

ghost use Rattle.std.specs.Prelude.{◌≡◌, Ok, Err, MatchResult};
ghost use Rattle.std.specs.Option.{option_copied};
ghost use Rattle.vsync_text.specs.Texts.{IsReadUnlessRefused};
ghost use Rattle.vsync_text.specs.Fields.{last};
ghost use Rattle.lock_table.specs.Words.{view_id_field, named, members_field, roll_said, command_said, command_said_in};

use crate::Command;
use address::ViewId;
use keyed_state::{KeyBytes, last_key};
use std::alloc::Global;
use view::View;
use vsync_text::{Fault, Unheard, first_field, is_word, view_id_in, view_in};

// The next field as a view id, and what is left behind it.
#[tactic(auto, unfolding(vsync_text::specs::Fields::spelled_at, vsync_text::specs::Fields::field_at))]
fn view_id_field(rest: Option<&[u8]>) -> Result<(ViewId, Option<&[u8]>), Fault>
    ensures { MatchResult result
        (λ read. view_id_field (option_copied rest.entry) ≡ Ok (read.0, option_copied read.1))
        (λ f. view_id_field (option_copied rest.entry) ≡ Err f) }
{
    let Some(text) = rest else {
        return Err(Fault::MissingField);
    };
    let (field, rest) = first_field(text);
    match view_id_in(field) {
        None => Err(Fault::BadNumber),
        Some(view) => Ok((view, rest)),
    }
}

// A view id, and the name with which a command ends.
fn named(rest: Option<&[u8]>) -> Result<(ViewId, KeyBytes<'_>), Fault>
    ensures { MatchResult result (λ read. named (option_copied rest.entry) ≡ Ok read) (λ f. named (option_copied rest.entry) ≡ Err f) }
{
    match view_id_field(rest) {
        Err(fault) => Err(fault),
        Ok((view, rest)) => match last_key(rest) {
            Err(fault) => Err(fault),
            Ok(name) => Ok((view, name)),
        },
    }
}

// The members of the view of an id, with which a command ends.
#[tactic(auto, unfolding(vsync_text::specs::Fields::spelled_at, vsync_text::specs::Fields::field_at, vsync_text::specs::Fields::last, vsync_text::specs::Fields::end_at))]
fn last_members(alloc: Global, id: ViewId, rest: Option<&[u8]>) -> Result<View, Unheard>
    ensures { IsReadUnlessRefused (λ x. x) result (last (members_field id (option_copied rest.entry))) }
{
    let Some(text) = rest else {
        return Err(Unheard::Fault(Fault::MissingField));
    };
    let (field, rest) = first_field(text);
    let Some(view) = view_in(alloc, id, field)? else {
        return Err(Unheard::Fault(Fault::BadNumber));
    };
    if rest.is_some() {
        return Err(Unheard::Fault(Fault::BadNumber));
    }
    Ok(view)
}

// The command `roll VIEW MEMBERS`.
fn roll_said<'a>(alloc: Global, rest: Option<&'a [u8]>) -> Result<Command<'a>, Unheard>
    ensures { IsReadUnlessRefused (λ x. x) result (roll_said (option_copied rest.entry)) }
{
    match view_id_field(rest) {
        Err(fault) => Err(Unheard::Fault(fault)),
        Ok((id, rest)) => match last_members(alloc, id, rest) {
            Err(unheard) => Err(unheard),
            Ok(view) => Ok(Command::Roll(view)),
        },
    }
}

// The command that a text says.
pub(crate) fn command_said(alloc: Global, text: &[u8]) -> Result<Command<'_>, Unheard>
    ensures { IsReadUnlessRefused (λ x. x) result (command_said text.now) }
{
    let (word, rest) = first_field(text);
    let acquires = is_word(word, b"acquire");
    if acquires | is_word(word, b"release") {
        match named(rest) {
            Err(fault) => Err(Unheard::Fault(fault)),
            Ok((view, name)) => {
                if acquires {
                    Ok(Command::Acquire { view, name })
                } else {
                    Ok(Command::Release { view, name })
                }
            }
        }
    } else if is_word(word, b"roll") {
        roll_said(alloc, rest)
    } else {
        Err(Unheard::Fault(Fault::BadNumber))
    }
}

// The command that a text says in the view of an id: `acquire NAME` or `release NAME`, sent in this view.
pub(crate) fn command_said_in(view: ViewId, text: &[u8]) -> Result<Command<'_>, Unheard>
    ensures { IsReadUnlessRefused (λ x. x) result (command_said_in view text.now) }
{
    let (word, rest) = first_field(text);
    let acquires = is_word(word, b"acquire");
    if !(acquires | is_word(word, b"release")) {
        return Err(Unheard::Fault(Fault::BadNumber));
    }
    match last_key(rest) {
        Err(fault) => Err(Unheard::Fault(fault)),
        Ok(name) => {
            if acquires {
                Ok(Command::Acquire { view, name })
            } else {
                Ok(Command::Release { view, name })
            }
        }
    }
}
