//! A line of a trace as an event.

ghost use Rattle.std.specs.Prelude.{◌≡◌, None, Some, Ok, IfOk, IfSome};
ghost use Rattle.trace_props.specs.declared.event.Event.TheVariants as event;
ghost use Rattle.trace_props.specs.Recorded.{IsShort};
ghost use Rattle.vsync_text.specs.Texts.{IsReadUnlessRefused};
ghost use Rattle.vsync_text.specs.Fields.{spelled_at, last, made};
ghost use Rattle.vsync_text.specs.AddressText.{address_of_text};
ghost use Rattle.vsync_text.specs.Spelling.{AreShort};
ghost use Rattle.vsync_text.specs.LineFields.{sending_at, delivery_at, install_at, stable_at};
ghost use Rattle.vsync_text.specs.Traces.{word_of, event_of, said_in_line};

use crate::line_fields::Fields;
use crate::{Fault, Unheard, first_field, is_word};
use address::Address;
use address::limits::TRACE_LINE;
use std::alloc::Global;
use trace_props::{BoxedInstall, Delivery, Event, Install, Message, Numbered, Sending};

/// A word with which a line of a trace begins.
#[derive(Clone, Copy, Drop)]
pub(crate) enum Word {
    Started,
    Sent,
    Delivered,
    Blocked,
    Installed,
    Left,
    Crashed,
}

fn word_of(name: &[u8]) -> Option<Word>
    ensures { result ≡ word_of name.now }
{
    if is_word(name, b"started") {
        Some(Word::Started)
    } else if is_word(name, b"sent") {
        Some(Word::Sent)
    } else if is_word(name, b"delivered") {
        Some(Word::Delivered)
    } else if is_word(name, b"blocked") {
        Some(Word::Blocked)
    } else if is_word(name, b"installed") {
        Some(Word::Installed)
    } else if is_word(name, b"left") {
        Some(Word::Left)
    } else if is_word(name, b"crashed") {
        Some(Word::Crashed)
    } else {
        None
    }
}

/// `P PREV W MEMBERS TOGETHER BACK STATE`.
#[tactic(auto, unfolding(crate::specs::LineFields::install_at, crate::specs::LineFields::view_at))]
fn install(alloc: Global, fields: &mut Fields<'_>) -> Result<Install, Unheard>
    ensures gives { IsReadUnlessRefused (λ x. (x, fields.new)) result (install_at fields.old) }
    ensures short { IfOk result (λ x. AreShort x.handed_back) }
{
    let member = fields.address()?;
    let previous = fields.previous()?;
    let id = fields.view_id()?;
    let view = fields.view(alloc, id)?;
    let together = fields.together(alloc)?;
    let handed_back = fields.handed_back(alloc)?;
    let given = fields.given(alloc)?;
    Ok(Install {
        member,
        previous,
        view,
        together,
        handed_back,
        given,
    })
}

/// The address that is all that is left of a line.
#[tactic(auto, unfolding(crate::specs::Fields::last))]
fn lone_address(mut fields: Fields<'_>) -> Result<Address, Unheard>
    ensures { IsReadUnlessRefused (λ x. x) result (last (spelled_at address_of_text fields.entry)) }
{
    let address = fields.address()?;
    fields.end()?;
    Ok(address)
}

/// The event of `P V N X`.
#[tactic(auto, unfolding(crate::specs::Fields::last, crate::specs::LineFields::sending_at))]
fn sent(alloc: Global, mut fields: Fields<'_>) -> Result<Event, Unheard>
    ensures gives { IsReadUnlessRefused (λ x. x) result (made event.Sent (last (sending_at fields.entry))) }
    ensures short { IfOk result IsShort }
{
    let member = fields.address()?;
    let view = fields.view_id()?;
    let number = fields.number()?;
    let payload = fields.payload(alloc)?;
    fields.end()?;
    let message = Numbered { number, payload };
    Ok(Event::Sent(Sending {
        member,
        view,
        message,
    }))
}

/// The event of `P V Q N X`.
#[tactic(auto, unfolding(crate::specs::Fields::last, crate::specs::LineFields::delivery_at))]
fn delivered(alloc: Global, mut fields: Fields<'_>) -> Result<Event, Unheard>
    ensures gives { IsReadUnlessRefused (λ x. x) result (made event.Delivered (last (delivery_at fields.entry))) }
    ensures short { IfOk result IsShort }
{
    let member = fields.address()?;
    let view = fields.view_id()?;
    let sender = fields.address()?;
    let number = fields.number()?;
    let payload = fields.payload(alloc)?;
    fields.end()?;
    let message = Message {
        sender,
        number,
        payload,
    };
    Ok(Event::Delivered(Delivery {
        member,
        view,
        message,
    }))
}

#[tactic(auto, unfolding(crate::specs::Fields::last))]
fn installed(alloc: Global, mut fields: Fields<'_>) -> Result<Event, Unheard>
    ensures gives { IsReadUnlessRefused (λ x. x) result (made event.Installed (last (install_at fields.entry))) }
    ensures short { IfOk result IsShort }
{
    let install = install(alloc, &mut fields)?;
    fields.end()?;
    Ok(Event::Installed(BoxedInstall::new(alloc, install)?))
}

/// The event of a word and of what is left behind it.
#[tactic(auto, unfolding(crate::specs::Traces::event_of))]
fn event_of(alloc: Global, word: Word, fields: Fields<'_>) -> Result<Event, Unheard>
    ensures gives { IsReadUnlessRefused (λ x. x) result (event_of word fields.entry) }
    ensures short { IfOk result IsShort }
{
    match word {
        Word::Sent => sent(alloc, fields),
        Word::Delivered => delivered(alloc, fields),
        Word::Installed => installed(alloc, fields),
        Word::Started => Ok(Event::Started(lone_address(fields)?)),
        Word::Blocked => Ok(Event::Blocked(lone_address(fields)?)),
        Word::Left => Ok(Event::Left(lone_address(fields)?)),
        Word::Crashed => Ok(Event::Crashed(lone_address(fields)?)),
    }
}

/// The count of `P V N`, which is all that is left of a line.
#[tactic(auto, unfolding(crate::specs::Fields::last, crate::specs::LineFields::stable_at))]
fn lone_stable(mut fields: Fields<'_>) -> Result<u64, Unheard>
    ensures { IsReadUnlessRefused (λ x. x) result (last (stable_at fields.entry)) }
{
    fields.address()?;
    fields.view_id()?;
    let count = fields.number()?;
    fields.end()?;
    Ok(count)
}

/// What a line says that is not skipped: an event; nothing, where it says which messages are stable.
#[tactic(auto, unfolding(crate::specs::Traces::said_in_line))]
pub(crate) fn said_in_line(alloc: Global, line: &[u8]) -> Result<Option<Event>, Unheard>
    ensures gives { IsReadUnlessRefused (λ x. x) result (said_in_line line.now) }
    ensures short { IfOk result (λ said. IfSome said IsShort) }
{
    if line.len() > TRACE_LINE {
        return Err(Unheard::Fault(Fault::LineTooLong));
    }
    let (name, rest) = first_field(line);
    if is_word(name, b"stable") {
        lone_stable(Fields::new(rest))?;
        return Ok(None);
    }
    match word_of(name) {
        None => Err(Unheard::Fault(Fault::UnknownWord)),
        Some(word) => Ok(Some(event_of(alloc, word, Fields::new(rest))?)),
    }
}
