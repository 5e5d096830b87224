//! Texts of ids, payloads and lists, appended to a buffer. Each comes behind one byte that separates it from what stands before.
//! Where memory is refused, a part may have been appended.

ghost use Rattle.std.specs.Prelude.{◌≡◌, ◌<◌, ◌++◌, ◌∷◌, OnOk};
ghost use Rattle.std.specs.Option.{option_copied};
ghost use Rattle.std.specs.Fmt.{decimal};
ghost use Rattle.address.specs.Ids.{text_of_address, text_of_view_id};
ghost use Rattle.vsync_text.specs.TraceText.{GoesOnFrom, hex_digit, hex_of, text_of_payload, text_of_addresses, text_of_handed_back, text_of_given};

use address::{Address, Bytes, ViewId};
use itoa::Buffer;
use std::alloc::AllocError;
use trace_props::Numbered;

/// Appends bytes. Where memory is refused, what stood before is kept, and a part may have been appended.
#[tactic(auto, using(crate::proofs::KeepFront::at_once, crate::proofs::KeepFront::same))]
pub fn put(out: &mut Vec<u8>, bytes: &[u8]) -> Result<(), AllocError>
    ensures text { OnOk result (out.new.items ≡ out.old.items ++ bytes.now) }
    ensures kept { GoesOnFrom out.old.items out.new.items }
{
    out.extend_from_slice(bytes)
}

/// Appends a number in decimal, with no byte before it. Where memory is refused, what stood before is kept, and a part may have been
/// appended.
pub fn put_decimal(out: &mut Vec<u8>, number: u64) -> Result<(), AllocError>
    ensures text { OnOk result (out.new.items ≡ out.old.items ++ decimal number) }
    ensures kept { GoesOnFrom out.old.items out.new.items }
{
    let mut buffer = Buffer::new();
    put(out, buffer.format(number).as_bytes())
}

/// Appends a number in decimal, behind one byte. Where memory is refused, what stood before is kept, and a part may have been appended.
#[tactic(auto, using(crate::proofs::KeepFront::goes_on))]
pub fn put_number(out: &mut Vec<u8>, before: u8, number: u64) -> Result<(), AllocError>
    ensures text { OnOk result (out.new.items ≡ out.old.items ++ before ∷ decimal number) }
    ensures kept { GoesOnFrom out.old.items out.new.items }
{
    put(out, &[before])?;
    put_decimal(out, number)
}

/// Appends an address as `3.1`, behind one byte. Where memory is refused, what stood before is kept, and a part may have been appended.
#[tactic(auto, using(crate::proofs::KeepFront::goes_on))]
pub fn put_address(out: &mut Vec<u8>, before: u8, address: &Address) -> Result<(), AllocError>
    ensures text { OnOk result (out.new.items ≡ out.old.items ++ before ∷ text_of_address address.now) }
    ensures kept { GoesOnFrom out.old.items out.new.items }
{
    put_number(out, before, u64::from(address.node().number()))?;
    put_number(out, b'.', u64::from(address.incarnation()))
}

/// Appends a view id as `7@3.1`, behind one byte. Where memory is refused, what stood before is kept, and a part may have been appended.
#[tactic(auto, using(crate::proofs::KeepFront::goes_on))]
pub fn put_view_id(out: &mut Vec<u8>, before: u8, view: &ViewId) -> Result<(), AllocError>
    ensures text { OnOk result (out.new.items ≡ out.old.items ++ before ∷ text_of_view_id view.now) }
    ensures kept { GoesOnFrom out.old.items out.new.items }
{
    put_number(out, before, view.counter())?;
    put_address(out, b'@', &view.creator())
}

/// The digit of a number below 16.
fn hex_digit(number: u8) -> u8
    requires { number < 16 }
    ensures { result ≡ hex_digit number }
{
    if number < 10 {
        b'0' + number
    } else {
        b'a' - 10 + number
    }
}

/// Appends bytes in lower case hexadecimal, two digits a byte, with no byte before them. Where memory is refused, what stood before is
/// kept, and a part may have been appended.
#[tactic(auto, using(crate::proofs::KeepFront::at_once, crate::proofs::KeepFront::same))]
pub fn put_hex(out: &mut Vec<u8>, bytes: &[u8]) -> Result<(), AllocError>
    ensures text { OnOk result (out.new.items ≡ out.old.items ++ hex_of bytes.now) }
    ensures kept { GoesOnFrom out.old.items out.new.items }
{
    out.reserve(2 * bytes.len())?;
    for byte in bytes {
        out.push_reserved(hex_digit(*byte / 16));
        out.push_reserved(hex_digit(*byte % 16));
    }
    Ok(())
}

/// Appends bytes in lower case hexadecimal, behind one byte.
#[tactic(auto, using(crate::proofs::KeepFront::goes_on))]
pub(crate) fn put_hex_behind(out: &mut Vec<u8>, before: u8, bytes: &[u8]) -> Result<(), AllocError>
    ensures text { OnOk result (out.new.items ≡ out.old.items ++ before ∷ hex_of bytes.now) }
    ensures kept { GoesOnFrom out.old.items out.new.items }
{
    put(out, &[before])?;
    put_hex(out, bytes)
}

/// Appends a payload, `-` for none.
#[tactic(auto, using(crate::proofs::KeepFront::goes_on))]
pub(crate) fn put_payload(out: &mut Vec<u8>, before: u8, payload: &[u8]) -> Result<(), AllocError>
    ensures text { OnOk result (out.new.items ≡ out.old.items ++ before ∷ text_of_payload payload.now) }
    ensures kept { GoesOnFrom out.old.items out.new.items }
{
    if payload.is_empty() {
        put(out, &[before, b'-'])
    } else {
        put_hex_behind(out, before, payload)
    }
}

/// Appends a given state, `-` for none.
#[tactic(auto, using(crate::proofs::KeepFront::goes_on))]
pub(crate) fn put_given(
    out: &mut Vec<u8>,
    before: u8,
    given: Option<&Bytes>,
) -> Result<(), AllocError>
    ensures text { OnOk result (out.new.items ≡ out.old.items ++ before ∷ text_of_given (option_copied given.entry)) }
    ensures kept { GoesOnFrom out.old.items out.new.items }
{
    match given {
        None => put(out, &[before, b'-']),
        Some(state) => {
            put(out, &[before, b'='])?;
            put_hex(out, state.as_slice())
        }
    }
}

/// Appends addresses behind one byte, joined by commas. Where memory is refused, what stood before is kept, and a part may have been appended.
pub fn put_addresses(out: &mut Vec<u8>, before: u8, members: &[Address]) -> Result<(), AllocError>
    ensures text { OnOk result (out.new.items ≡ out.old.items ++ before ∷ text_of_addresses members.now) }
    ensures kept { GoesOnFrom out.old.items out.new.items }
{
    if members.is_empty() {
        return put(out, &[before]);
    }
    let mut mark = before;
    for member in members {
        put_address(out, mark, member)?;
        mark = b',';
    }
    Ok(())
}

/// Appends messages that were handed back, joined by commas, `-` for none.
pub(crate) fn put_handed_back(
    out: &mut Vec<u8>,
    before: u8,
    messages: &[Numbered],
) -> Result<(), AllocError>
    ensures text { OnOk result (out.new.items ≡ out.old.items ++ before ∷ text_of_handed_back messages.now) }
    ensures kept { GoesOnFrom out.old.items out.new.items }
{
    if messages.is_empty() {
        return put(out, &[before, b'-']);
    }
    let mut mark = before;
    for message in messages {
        put_number(out, mark, message.number)?;
        put_hex_behind(out, b':', message.payload.as_slice())?;
        mark = b',';
    }
    Ok(())
}
