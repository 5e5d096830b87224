ghost use Rattle.std.specs.Prelude.{◌≡◌, ◌++◌, OnOk, OnErr};
ghost use Rattle.std.specs.Option.{option_copied};
ghost use Rattle.vsync_text.specs.Parts.{text_of_part};
ghost use Rattle.vsync_text.specs.TraceText.{GoesOnFrom, text_of_previous, sending_fields, delivery_fields, install_view, install_rest, event_word, fields_of, line_of};
ghost use Rattle.vsync_text.specs.Runs.{refusal_line};

use crate::append::{put, put_address, put_addresses, put_given, put_handed_back, put_payload};
use crate::{Part, put_parts};
use address::ViewId;
use std::alloc::AllocError;
use trace_props::{Delivery, Event, Install, Sending};

/// A view id as a part, or `-`.
fn previous_part(previous: Option<&ViewId>) -> Part<'static>
    ensures { text_of_part result ≡ text_of_previous (option_copied previous.entry) }
{
    match previous {
        None => Part::Text(b"-"),
        Some(view) => Part::View(*view),
    }
}

#[tactic(auto, using(crate::proofs::KeepFront::goes_on))]
fn put_sending_fields(out: &mut Vec<u8>, sending: &Sending) -> Result<(), AllocError>
    ensures text { OnOk result (out.new.items ≡ out.old.items ++ sending_fields sending.now) }
    ensures kept { GoesOnFrom out.old.items out.new.items }
{
    let parts = [
        Part::Text(b" "),
        Part::Address(sending.member),
        Part::Text(b" "),
        Part::View(sending.view),
        Part::Text(b" "),
        Part::Number(sending.message.number),
    ];
    put_parts(out, &parts)?;
    put_payload(out, b' ', sending.message.payload.as_slice())
}

#[tactic(auto, using(crate::proofs::KeepFront::goes_on))]
fn put_delivery_fields(out: &mut Vec<u8>, delivery: &Delivery) -> Result<(), AllocError>
    ensures text { OnOk result (out.new.items ≡ out.old.items ++ delivery_fields delivery.now) }
    ensures kept { GoesOnFrom out.old.items out.new.items }
{
    let parts = [
        Part::Text(b" "),
        Part::Address(delivery.member),
        Part::Text(b" "),
        Part::View(delivery.view),
        Part::Text(b" "),
        Part::Address(delivery.message.sender),
        Part::Text(b" "),
        Part::Number(delivery.message.number),
    ];
    put_parts(out, &parts)?;
    put_payload(out, b' ', delivery.message.payload.as_slice())
}

fn put_install_fields(out: &mut Vec<u8>, install: &Install) -> Result<(), AllocError>
    ensures text { OnOk result (out.new.items ≡ out.old.items ++ (install_view install.now ++ install_rest install.now)) }
    ensures kept { GoesOnFrom out.old.items out.new.items }
{
    let parts = [
        Part::Text(b" "),
        Part::Address(install.member),
        Part::Text(b" "),
        previous_part(install.previous.as_ref()),
        Part::Text(b" "),
        Part::View(install.view.id()),
    ];
    put_parts(out, &parts)?;
    put_addresses(out, b' ', install.view.members().as_slice())?;
    put_addresses(out, b' ', install.together.as_slice())?;
    put_handed_back(out, b' ', install.handed_back.as_slice())?;
    put_given(out, b' ', install.given.as_ref())
}

/// Appends the fields of an event, each behind a space.
fn put_fields(out: &mut Vec<u8>, event: &Event) -> Result<(), AllocError>
    ensures text { OnOk result (out.new.items ≡ out.old.items ++ fields_of event.now) }
    ensures kept { GoesOnFrom out.old.items out.new.items }
{
    match event {
        Event::Started(member) => put_address(out, b' ', member),
        Event::Sent(sending) => put_sending_fields(out, sending),
        Event::Delivered(delivery) => put_delivery_fields(out, delivery),
        Event::Blocked(member) => put_address(out, b' ', member),
        Event::Installed(install) => put_install_fields(out, install.get()),
        Event::Left(member) => put_address(out, b' ', member),
        Event::Crashed(member) => put_address(out, b' ', member),
    }
}

/// The word with which the line of an event begins.
fn event_word(event: &Event) -> &'static [u8]
    ensures { result.now ≡ event_word event.now }
{
    match event {
        Event::Started(_) => b"started",
        Event::Sent(_) => b"sent",
        Event::Delivered(_) => b"delivered",
        Event::Blocked(_) => b"blocked",
        Event::Installed(_) => b"installed",
        Event::Left(_) => b"left",
        Event::Crashed(_) => b"crashed",
    }
}

/// Appends the line of an event or a part of it.
fn put_event(out: &mut Vec<u8>, event: &Event) -> Result<(), AllocError>
    ensures text { OnOk result (out.new.items ≡ out.old.items ++ line_of event.now) }
    ensures kept { GoesOnFrom out.old.items out.new.items }
{
    put(out, event_word(event))?;
    put_fields(out, event)?;
    put(out, b"\n")
}

/// Appends the line of an event with its line feed, as `sent 1.1 1@1.1 1 6869`.
///
/// # Errors
///
/// Where memory is refused, the buffer is left as it was.
pub fn append_event(out: &mut Vec<u8>, event: &Event) -> Result<(), AllocError>
    ensures text { OnOk result (out.new.items ≡ out.old.items ++ line_of event.now) }
    ensures err { OnErr result (out.new.items ≡ out.old.items) }
{
    let before = out.len();
    let result = put_event(out, event);
    if result.is_err() {
        out.truncate(before);
    }
    result
}

/// Appends `# refused LINE NUMBER` with its line feed, for the event of a line that was refused with a number.
///
/// # Errors
///
/// Where memory is refused, the buffer is left as it was.
pub fn append_refusal(out: &mut Vec<u8>, line: u64, number: u8) -> Result<(), AllocError>
    ensures text { OnOk result (out.new.items ≡ out.old.items ++ refusal_line line number) }
    ensures err { OnErr result (out.new.items ≡ out.old.items) }
{
    let parts = [
        Part::Text(b"# refused "),
        Part::Number(line),
        Part::Text(b" "),
        Part::Number(u64::from(number)),
        Part::Text(b"\n"),
    ];
    let before = out.len();
    let result = put_parts(out, &parts);
    if result.is_err() {
        out.truncate(before);
    }
    result
}
