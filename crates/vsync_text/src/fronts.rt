//! What stands at the front of a text, read in one pass: a number, an address, a view id.

ghost use Rattle.std.specs.Prelude.{◌≡◌, ◌<◌, ◌≤◌, ◌+◌, ◌∷◌, [], None, Some, length, IfSome, MatchOption};
ghost use Rattle.std.specs.Option.{option_copied, option_map};
ghost use Rattle.address.specs.declared.limits.TheConstants.{GREATEST_NUMBER};
ghost use Rattle.vsync_text.specs.Fronts.{digits_of, behind_digits, behind_mark, number_in_front, address_in_front, view_id_in_front, left_behind};

use address::limits::{GREATEST_INCARNATION, GREATEST_NODE, GREATEST_NUMBER};
use address::{Address, Node, ViewId};

// No number goes on behind a greater one: it would be above `GREATEST_NUMBER`.
const FULL: u64 = 1_000_000_000_000_000_000;

/// The value of the digit at the front of a text, and what is behind it.
fn digit_in_front(text: &[u8]) -> Option<(u8, &[u8])>
    ensures reads { MatchOption result
        ((digits_of text.now ≡ []) × (behind_digits text.now ≡ text.now))
        (λ r. text.now ≡ (48 + r.0) ∷ r.1.now) }
    ensures digit { IfSome result (λ r. r.0 < 10) }
{
    match text.split_first() {
        None => None,
        Some((first, behind)) => {
            if first.is_ascii_digit() {
                Some((*first - b'0', behind))
            } else {
                None
            }
        }
    }
}

/// The number from 1 to `high` at the front of a text, in decimal without leading zeros, and what is behind its digits.
pub(crate) fn number_in_front(high: u64, text: &[u8]) -> Option<(u64, &[u8])>
    requires { high ≤ GREATEST_NUMBER }
    ensures reads { MatchOption result (number_in_front high text.now ≡ None) (λ r. number_in_front high text.now ≡ Some (r.0, r.1.now)) }
    ensures within { IfSome result (λ r. (1 ≤ r.0) × (r.0 ≤ high)) }
{
    let mut value: u64 = 0;
    let mut rest = text;
    while let Some((digit, behind)) = digit_in_front(rest) {
        if value > FULL {
            return None;
        }
        if value == 0 && digit == 0 {
            return None;
        }
        value = value * 10 + u64::from(digit);
        rest = behind;
    }
    if (value == 0) | (value > high) {
        return None;
    }
    Some((value, rest))
}

/// The text behind its first byte, if that is `byte`.
pub(crate) fn behind_mark(byte: u8, text: &[u8]) -> Option<&[u8]>
    ensures { option_copied result ≡ behind_mark byte text.now }
{
    match text.split_first() {
        None => None,
        Some((first, behind)) => { if *first == byte { Some(behind) } else { None } }
    }
}

/// The address at the front of a text, `N.I`, and what is behind it.
#[tactic(auto, unfolding(crate::specs::Fronts::address_in_front))]
pub(crate) fn address_in_front(text: &[u8]) -> Option<(Address, &[u8])>
    ensures { MatchOption result (address_in_front text.now ≡ None) (λ r. address_in_front text.now ≡ Some (r.0, r.1.now)) }
{
    let (node, rest) = number_in_front(GREATEST_NODE, text)?;
    let rest = behind_mark(b'.', rest)?;
    let (incarnation, rest) = number_in_front(GREATEST_INCARNATION, rest)?;
    let address = Address::new(Node::new(node as u16)?, incarnation as u32)?;
    Some((address, rest))
}

/// The view id at the front of a text, `C@N.I`, and what is behind it.
#[tactic(auto, unfolding(crate::specs::Fronts::view_id_in_front))]
pub(crate) fn view_id_in_front(text: &[u8]) -> Option<(ViewId, &[u8])>
    ensures { MatchOption result (view_id_in_front text.now ≡ None) (λ r. view_id_in_front text.now ≡ Some (r.0, r.1.now)) }
{
    let (counter, rest) = number_in_front(GREATEST_NUMBER, text)?;
    let rest = behind_mark(b'@', rest)?;
    let Some((creator, rest)) = address_in_front(rest) else {
        return None;
    };
    let id = ViewId::new(counter, creator)?;
    Some((id, rest))
}

/// What is left of a line whose field ends where a text begins: `None` where it does not end there, else the text behind the
/// space, if one follows.
pub(crate) fn left_behind(text: &[u8]) -> Option<Option<&[u8]>>
    ensures { option_map (λ left. option_copied left) result ≡ left_behind text.now }
{
    match text.split_first() {
        None => Some(None),
        Some((first, behind)) => {
            if *first == b' ' {
                Some(Some(behind))
            } else {
                None
            }
        }
    }
}
