ghost use Rattle.std.specs.Prelude.{◌≡◌, ◌+◌, ◌&&◌, ◌||◌, nat_eq, length, slice_get};
ghost use Rattle.std.specs.Option.{option_copied};
ghost use Rattle.address.specs.Ids.{same_address};
ghost use Rattle.trace_props.specs.Observed.{sent_in, delivered_in, own, numbered};
ghost use Rattle.trace_rules.specs.Known.{Says};
ghost use Rattle.trace_rules.specs.Judged.{is_numbered, is_message};

use crate::known::{InView, Past, delivered_at, delivered_count, last, sent_at, sent_count};
use address::{Address, Bytes, ViewId};
use trace_props::{Delivery, Message, Numbered, Sending};

/// Whether a number is the next after a count.
fn follows(number: u64, count: u64) -> bool
    ensures { result ≡ nat_eq number (count + 1) }
{
    count < number && number - count == 1
}

/// Whether a message was sent with this number and this payload.
pub fn is_numbered(sent: Option<&Numbered>, number: u64, payload: &Bytes) -> bool
    ensures { result ≡ is_numbered (option_copied sent.entry) (record { number = number; payload = payload.now }) }
{
    match sent {
        None => false,
        Some(sent) => sent.number == number && sent.payload.as_slice() == payload.as_slice(),
    }
}

fn is_message(delivered: Option<&Message>, message: &Message) -> bool
    ensures { result ≡ is_message (option_copied delivered.entry) message.now }
{
    match delivered {
        None => false,
        Some(delivered) => delivered.sender == message.sender
            && delivered.number == message.number
            && delivered.payload.as_slice() == message.payload.as_slice(),
    }
}

/// Whether a message that is sent has the next number.
pub fn may_send(past: &Past, sending: &Sending) -> bool
    ensures { result ≡ nat_eq sending.now.message.number (length (sent_in sending.now.member sending.now.view past.now) + 1) }
{
    let kept = past.in_view(sending.member, sending.view);
    follows(sending.message.number, sent_count(kept) as u64)
}

// What is kept of a member in a view, beside what is kept of another there, which may be the same.
fn beside<'p, 'a>(
    past: &'p Past<'a>,
    other: Address,
    of_other: Option<&'p InView<'a>>,
    member: Address,
    view: ViewId,
) -> Option<&'p InView<'a>>
    requires { Says (option_copied of_other) other view past.now }
    ensures { Says (option_copied result) member view past.now }
{
    if member == other {
        of_other
    } else {
        past.in_view(member, view)
    }
}

// Whether a message that is delivered is the next that the view's coordinator delivered.
fn is_next_in_order(
    past: &Past,
    of_member: Option<&InView>,
    of_sender: Option<&InView>,
    delivery: &Delivery,
) -> bool
    requires member { Says (option_copied of_member) delivery.now.member delivery.now.view past.now }
    requires sender { Says (option_copied of_sender) delivery.now.message.sender delivery.now.view past.now }
    ensures { result
        ≡ (same_address delivery.now.member delivery.now.view.creator
        || is_message (slice_get (delivered_in delivery.now.view.creator delivery.now.view past.now) (length (delivered_in delivery.now.member delivery.now.view past.now))) delivery.now.message) }
{
    let creator = delivery.view.creator();
    if delivery.member == creator {
        true
    } else {
        let of_creator = beside(
            past,
            delivery.message.sender,
            of_sender,
            creator,
            delivery.view,
        );
        let next = delivered_at(of_creator, delivered_count(of_member));
        is_message(next, &delivery.message)
    }
}

/// Whether a message that is delivered is its sender's next, and whether it is the next that the view's coordinator delivered.
pub fn may_deliver(past: &Past, delivery: &Delivery) -> (bool, bool)
    ensures messages { result.0
        ≡ (nat_eq delivery.now.message.number (length (own delivery.now.message.sender (delivered_in delivery.now.member delivery.now.view past.now)) + 1)
        && is_numbered (slice_get (sent_in delivery.now.message.sender delivery.now.view past.now) (length (own delivery.now.message.sender (delivered_in delivery.now.member delivery.now.view past.now)))) (numbered delivery.now.message)) }
    ensures order { result.1
        ≡ (same_address delivery.now.member delivery.now.view.creator
        || is_message (slice_get (delivered_in delivery.now.view.creator delivery.now.view past.now) (length (delivered_in delivery.now.member delivery.now.view past.now))) delivery.now.message) }
{
    let message = &delivery.message;
    let of_member = past.in_view(delivery.member, delivery.view);
    let of_sender = beside(
        past,
        delivery.member,
        of_member,
        message.sender,
        delivery.view,
    );
    let before = last(of_member, message.sender);
    let next = sent_at(of_sender, before as usize);
    let is_next = follows(message.number, before)
        & is_numbered(next, message.number, &message.payload);
    (
        is_next,
        is_next_in_order(past, of_member, of_sender, delivery),
    )
}
