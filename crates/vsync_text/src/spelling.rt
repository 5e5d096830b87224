//! What a field of a trace spells: `None` where it is not of its form or range.

ghost use Rattle.std.specs.Prelude.{◌≡◌, ◌≤◌, length, IfOk, IfSome};
ghost use Rattle.view.specs.Members.{is_distinct};
ghost use Rattle.vsync_text.specs.Spelling.{view_id_of_text, previous_of_text, short_of_hex, payload_of_text, view_of_text, together_of_text, message_of_text, AreShort, handed_back_of_text, given_of_text};

use crate::forms::{addresses_in, next_part};
use crate::fronts::behind_mark;
use crate::hexadecimal::bytes_in;
use crate::{address_in, is_word, number_in, split_at_first};
use address::limits::{GREATEST_NUMBER, PAYLOAD};
use address::{Address, Bytes, ViewId};
use std::alloc::{AllocError, Global};
use std::collections::BTreeSet;
use trace_props::{HandedBack, Numbered};
use view::{Addresses, View};

/// The view id that a field spells: `C@N.I`, a counter from 1 to `GREATEST_NUMBER` and an address; `None` where it is anything else (docs/FORMATS.md,
/// "Trace text").
#[tactic(auto, unfolding(crate::specs::Spelling::view_id_of_text))]
pub fn view_id_in(field: &[u8]) -> Option<ViewId>
    ensures { result ≡ view_id_of_text field.now }
{
    let (counter, behind) = split_at_first(b'@', field);
    let counter = number_in(1, GREATEST_NUMBER, counter)?;
    let creator = address_in(behind?)?;
    ViewId::new(counter, creator)
}

/// A view id, or `-` for none.
#[tactic(auto, unfolding(crate::specs::Spelling::previous_of_text))]
pub(crate) fn previous_in(field: &[u8]) -> Option<Option<ViewId>>
    ensures { result ≡ previous_of_text field.now }
{
    if is_word(field, b"-") {
        return Some(None);
    }
    Some(Some(view_id_in(field)?))
}

/// The bytes of a payload, in hexadecimal.
#[tactic(auto, unfolding(crate::specs::Spelling::short_of_hex))]
fn short_in(alloc: Global, digits: &[u8]) -> Result<Option<Bytes>, AllocError>
    ensures read { IfOk result (λ read. read ≡ short_of_hex digits.now) }
    ensures short { IfOk result (λ read. IfSome read (λ x. length x ≤ PAYLOAD)) }
{
    match bytes_in(alloc, digits)? {
        None => Ok(None),
        Some(bytes) => {
            if bytes.as_slice().len() <= PAYLOAD {
                Ok(Some(bytes))
            } else {
                Ok(None)
            }
        }
    }
}

/// A payload in hexadecimal, `-` for the empty one.
#[tactic(auto, unfolding(crate::specs::Spelling::payload_of_text))]
pub(crate) fn payload_in(alloc: Global, field: &[u8]) -> Result<Option<Bytes>, AllocError>
    ensures read { IfOk result (λ read. read ≡ payload_of_text field.now) }
    ensures short { IfOk result (λ read. IfSome read (λ x. length x ≤ PAYLOAD)) }
{
    if field.is_empty() {
        return Ok(None);
    }
    if is_word(field, b"-") {
        return Ok(Some(Bytes::from_vec(Vec::new(alloc))));
    }
    short_in(alloc, field)
}

/// The view of an id that has the members of a field: addresses joined by commas; `None` where they are none, or are no members of such a view
/// (docs/FORMATS.md, "Trace text").
#[tactic(auto, unfolding(crate::specs::Spelling::view_of_text))]
pub fn view_in(alloc: Global, id: ViewId, field: &[u8]) -> Result<Option<View>, AllocError>
    ensures { IfOk result (λ read. read ≡ view_of_text id field.now) }
{
    match addresses_in(alloc, field)? {
        None => Ok(None),
        Some(members) => Ok(View::new(id, members).ok()),
    }
}

/// Whether no address stands twice.
#[tactic(auto, using(crate::proofs::AddressesDistinct::nothing_seen))]
fn are_distinct(alloc: Global, addresses: &[Address]) -> Result<bool, AllocError>
    ensures { IfOk result (λ distinct. distinct ≡ is_distinct addresses.now) }
{
    let mut seen = BTreeSet::new(alloc);
    for address in addresses {
        if !seen.insert(*address)? {
            return Ok(false);
        }
    }
    Ok(true)
}

/// Addresses of which none stands twice.
#[tactic(auto, unfolding(crate::specs::Spelling::together_of_text))]
pub(crate) fn together_in(alloc: Global, field: &[u8]) -> Result<Option<Addresses>, AllocError>
    ensures { IfOk result (λ read. read ≡ together_of_text field.now) }
{
    match addresses_in(alloc, field)? {
        None => Ok(None),
        Some(together) => {
            if are_distinct(alloc, together.as_slice())? {
                Ok(Some(together))
            } else {
                Ok(None)
            }
        }
    }
}

/// `n:hex`.
#[tactic(auto, unfolding(crate::specs::Spelling::message_of_text))]
fn message_in(alloc: Global, part: &[u8]) -> Result<Option<Numbered>, AllocError>
    ensures read { IfOk result (λ read. read ≡ message_of_text part.now) }
    ensures short { IfOk result (λ read. IfSome read (λ m. length m.payload ≤ PAYLOAD)) }
{
    let (number, behind) = split_at_first(b':', part);
    let (Some(number), Some(digits)) = (number_in(1, GREATEST_NUMBER, number), behind) else {
        return Ok(None);
    };
    match short_in(alloc, digits)? {
        None => Ok(None),
        Some(payload) => Ok(Some(Numbered { number, payload })),
    }
}

/// Messages joined by commas, `-` for none.
#[tactic(auto, using(crate::proofs::ListsAreRead::part_read, crate::proofs::ListsAreRead::part_fails, crate::proofs::ListsAreRead::all_read, crate::proofs::ListsAreRead::short_push), unfolding(crate::specs::Spelling::handed_back_of_text, crate::specs::Spelling::messages_of_text))]
pub(crate) fn handed_back_in(alloc: Global, field: &[u8]) -> Result<Option<HandedBack>, AllocError>
    ensures read { IfOk result (λ read. read ≡ handed_back_of_text field.now) }
    ensures short { IfOk result (λ read. IfSome read AreShort) }
{
    if is_word(field, b"-") {
        return Ok(Some(HandedBack::nothing(alloc)));
    }
    let mut messages = Vec::new(alloc);
    let mut left = Some(field);
    while let Some((part, behind)) = next_part(left) {
        let Some(message) = message_in(alloc, part)? else {
            return Ok(None);
        };
        messages.push(message)?;
        left = behind;
    }
    Ok(Some(HandedBack::from_vec(messages)))
}

/// A given state, `=` and its hexadecimal, `-` for none.
#[tactic(auto, unfolding(crate::specs::Spelling::given_of_text, crate::specs::Spelling::state_of_text))]
pub(crate) fn given_in(alloc: Global, field: &[u8]) -> Result<Option<Option<Bytes>>, AllocError>
    ensures { IfOk result (λ read. read ≡ given_of_text field.now) }
{
    if is_word(field, b"-") {
        return Ok(Some(None));
    }
    match behind_mark(b'=', field) {
        None => Ok(None),
        Some(digits) => match bytes_in(alloc, digits)? {
            None => Ok(None),
            Some(state) => Ok(Some(Some(state))),
        },
    }
}
