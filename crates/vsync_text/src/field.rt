ghost use Rattle.std.specs.Prelude.{◌≡◌, ◌<◌, ◌≤◌, ◌∷◌, ◌++◌, ℕ, List, None, Some, length, nat_eq, nat_le, IfSome, MatchResult, if◌then◌else◌};
ghost use Rattle.std.specs.List.{list_all, position_or_len};
ghost use Rattle.std.specs.Char.{is_ascii_digit};
ghost use Rattle.std.specs.Option.{option_copied};
ghost use Rattle.std.specs.Str.{bytes_eq};
ghost use Rattle.vsync_text.specs.Lines.{lines_of, before_byte, behind_byte, field_of, behind_field};
ghost use Rattle.vsync_text.specs.Numbers.{is_plain, value_of, number_in};
ghost use Rattle.vsync_text.specs.AddressText.{address_of_text};
ghost use Rattle.vsync_text.specs.Fields.{spelled_at, last, node_field, address_field};
ghost use Rattle.vsync_text.specs.Texts.{IsReadUnlessRefused};

use crate::{Fault, Unheard};
use address::limits::{GREATEST_INCARNATION, GREATEST_NODE};
use address::{Address, Node};
use memchr::memchr;

/// Whether a text is this word.
pub fn is_word(text: &[u8], word: &[u8]) -> bool
    ensures { result ≡ bytes_eq text.now word.now }
{
    text == word
}

/// How many bytes stand before the first that is `byte`: all of them where none is. It is looked for many bytes at a time.
fn length_until(byte: u8, text: &[u8]) -> usize
    ensures value { result ≡ position_or_len (λ b. nat_eq b byte) text.now }
    ensures within { result ≤ length text.now }
{
    match memchr(byte, text) {
        None => text.len(),
        Some(end) => end,
    }
}

/// The first line of a text that is not empty, without its line feed, and what stands behind that; a last line may lack its
/// line feed (docs/FORMATS.md, "Script text").
#[tactic(auto, using(crate::proofs::ScriptsRead::first_of_lines))]
pub fn first_line(text: &[u8]) -> (&[u8], &[u8])
    requires { 0 < length text.now }
    ensures lines { lines_of text.now ≡ result.0.now ∷ lines_of result.1.now }
    ensures shorter { length result.1.now < length text.now }
{
    let (line, rest) = text.split_at(length_until(b'\n', text));
    match rest.split_first() {
        None => (line, rest),
        Some((_, behind)) => (line, behind),
    }
}

/// The first line of a text, without its line feed, and what stands behind that; `None` where no line ends in the text.
pub(crate) fn whole_line_in_front(text: &[u8]) -> Option<(&[u8], &[u8])>
    ensures lines { IfSome result (λ r. (more : List ℕ) → lines_of (text.now ++ more) ≡ r.0.now ∷ lines_of (r.1.now ++ more)) }
    ensures shorter { IfSome result (λ r. length r.1.now < length text.now) }
{
    let (line, rest) = text.split_at(length_until(b'\n', text));
    match rest.split_first() {
        None => None,
        Some((_, behind)) => Some((line, behind)),
    }
}

/// The text before the first byte that is `byte`, and what stands behind that byte. Where none is, all the text and `None`.
pub fn split_at_first(byte: u8, text: &[u8]) -> (&[u8], Option<&[u8]>)
    ensures before { result.0.now ≡ before_byte byte text.now }
    ensures behind { option_copied result.1 ≡ behind_byte byte text.now }
{
    let (front, rest) = text.split_at(length_until(byte, text));
    match rest.split_first() {
        None => (front, None),
        Some((_, behind)) => (front, Some(behind)),
    }
}

/// The field at the front of a text, and what stands behind the space that follows it; `None` where none follows. A field
/// may be empty (docs/FORMATS.md, "Script text").
pub fn first_field(text: &[u8]) -> (&[u8], Option<&[u8]>)
    ensures field { result.0.now ≡ field_of text.now }
    ensures rest { option_copied result.1 ≡ behind_field text.now }
{
    split_at_first(b' ', text)
}

/// Whether each byte of a field is a decimal digit.
fn are_digits(field: &[u8]) -> bool
    ensures { result ≡ list_all is_ascii_digit field.now }
{
    for byte in field {
        if !byte.is_ascii_digit() {
            return false;
        }
    }
    true
}

/// Whether a field has decimal digits alone, without leading zeros.
fn is_plain(field: &[u8]) -> bool
    ensures { result ≡ is_plain field.now }
{
    match field.split_first() {
        None => false,
        Some((first, rest)) => (rest.is_empty() | (*first != b'0')) & are_digits(field),
    }
}

/// The number that digits spell, if it is at most `high`.
#[tactic(auto, using(crate::proofs::ScriptsRead::value_beyond))]
fn value_of(digits: &[u8], high: u64) -> Option<u64>
    ensures { result ≡ (if nat_le (value_of digits.now) high then Some (value_of digits.now) else None) }
{
    let mut value: u64 = 0;
    for digit in digits {
        let next = u128::from(value) * 10 + u128::from(digit.saturating_sub(b'0'));
        if next > u128::from(high) {
            return None;
        }
        value = next as u64;
    }
    Some(value)
}

/// The number from `low` to `high` that a field spells, in decimal without leading zeros; `None` where it is anything else
/// (docs/FORMATS.md, "Script text").
pub fn number_in(low: u64, high: u64, field: &[u8]) -> Option<u64>
    ensures { result ≡ number_in low high field.now }
{
    if !is_plain(field) {
        return None;
    }
    let value = value_of(field, high)?;
    if value < low {
        return None;
    }
    Some(value)
}

/// The next field as a node, and what is left behind it.
#[tactic(auto, unfolding(crate::specs::Fields::spelled_at, crate::specs::Fields::field_at))]
pub(crate) fn node_field(rest: Option<&[u8]>) -> Result<(Node, Option<&[u8]>), Fault>
    ensures { MatchResult result
        (λ read. node_field (option_copied rest.entry) ≡ Ok (read.0, option_copied read.1))
        (λ f. node_field (option_copied rest.entry) ≡ Err f) }
{
    let Some(text) = rest else {
        return Err(Fault::MissingField);
    };
    let (field, rest) = first_field(text);
    match number_in(1, GREATEST_NODE, field) {
        None => Err(Fault::BadNumber),
        Some(number) => match Node::new(number as u16) {
            None => Err(Fault::BadNumber),
            Some(node) => Ok((node, rest)),
        },
    }
}

/// The number from `low` to `high` with which a line ends.
#[tactic(auto, unfolding(crate::specs::Fields::spelled_at, crate::specs::Fields::field_at, crate::specs::Fields::last, crate::specs::Fields::end_at))]
pub(crate) fn lone_number(low: u64, high: u64, rest: Option<&[u8]>) -> Result<u64, Unheard>
    ensures { IsReadUnlessRefused (λ x. x) result (last (spelled_at (number_in low high) (option_copied rest.entry))) }
{
    let Some(text) = rest else {
        return Err(Unheard::Fault(Fault::MissingField));
    };
    let (field, rest) = first_field(text);
    match number_in(low, high, field) {
        Some(number) if rest.is_none() => Ok(number),
        _ => Err(Unheard::Fault(Fault::BadNumber)),
    }
}

/// The address that a field spells: `N.I`, a node from 1 to 65535, a point and an incarnation from 1 to 4294967295, both
/// in decimal without leading zeros; `None` where it is anything else (docs/FORMATS.md, "Trace text").
pub fn address_in(field: &[u8]) -> Option<Address>
    ensures { result ≡ address_of_text field.now }
{
    let (node, rest) = split_at_first(b'.', field);
    let node = number_in(1, GREATEST_NODE, node)?;
    let incarnation = number_in(1, GREATEST_INCARNATION, rest?)?;
    Address::new(Node::new(node as u16)?, incarnation as u32)
}

/// The next field as an address, and what is left behind it.
///
/// # Errors
///
/// 42 where no field is left, 41 where it is no address.
#[tactic(auto, unfolding(crate::specs::Fields::spelled_at, crate::specs::Fields::field_at))]
pub fn address_field(rest: Option<&[u8]>) -> Result<(Address, Option<&[u8]>), Fault>
    ensures { MatchResult result
        (λ read. address_field (option_copied rest.entry) ≡ Ok (read.0, option_copied read.1))
        (λ f. address_field (option_copied rest.entry) ≡ Err f) }
{
    let Some(text) = rest else {
        return Err(Fault::MissingField);
    };
    let (field, rest) = first_field(text);
    match address_in(field) {
        None => Err(Fault::BadNumber),
        Some(address) => Ok((address, rest)),
    }
}
