ghost use Rattle.std.specs.Prelude.{◌≡◌, ◌<◌, ◌≤◌, ◌^◌, ◌++◌, [], true, Some, Ok, ℕ, List, length, option_to_list, IfOk, IfNone};
ghost use Rattle.std.specs.Option.{SomeIff};
ghost use Rattle.std.specs.List.{flat_map, AllByRecursion};
ghost use Rattle.wire_values.specs.Values.{Entry as EntryValue};
ghost use Rattle.wire_values.specs.Reading.{IsRead, rest_of, listed, is_whole, list_at};
ghost use Rattle.wire_values.specs.Fields.{payload_at, entry_at, placed_at, IsEntry, IsPlaced, entry_bytes, placed_bytes};
ghost use Rattle.wire_values.specs.Lists.{are_held, held_at, highest_next};

use crate::error::WireError;
use crate::fields::Reader;
use crate::numbers::number_at;
use crate::text::payload_at;
use crate::{Entry, Number};
use address::limits::{GREATEST_NUMBER, WINDOW};
use std::marker::Model;

/// Reads an entry: its sender, its number and its payload. An error is that of the first field that fails.
#[tactic(auto, unfolding(crate::specs::Fields::entry_at))]
pub fn entry_at<'a>(from: &mut Reader<'a>) -> Result<Entry<'a>, WireError>
    ensures { IsRead (λ x. (x, from.new)) result (entry_at from.old) }
{
    let sender = from.address()?;
    let number = number_at(1, GREATEST_NUMBER, from)?;
    let payload = payload_at(from)?;
    Ok(Entry {
        sender,
        number,
        payload,
    })
}

/// The entries of an INSTALL in lent bytes, spelled one behind the other. Contracts see them as a list.
#[derive(Drop)]
pub struct Items<'a> {
    count: u8,
    bytes: &'a [u8],
}

impl<'a> Model for Items<'a> {
    ghost use Rattle.std.specs.Prelude.{List, ◌≡◌, true};
    ghost use Rattle.wire_values.specs.Values.{Entry};
    ghost use Rattle.wire_values.specs.Reading.{listed, is_whole, list_at};
    ghost use Rattle.wire_values.specs.Fields.{entry_at};

    ghost Value = { List Entry };

    ghost view = { λ l. listed (list_at entry_at l.count l.bytes.now) };

    ghost invariant = { λ l. is_whole (list_at entry_at l.count l.bytes.now) ≡ true };
}

// What lies in lent bytes that are whole.
fn items_text(count: u8, bytes: &[u8]) -> &[u8]
    requires { is_whole (list_at entry_at count bytes.now) ≡ true }
    ensures text { result.now ≡ flat_map entry_bytes (listed (list_at entry_at count bytes.now)) }
    ensures fits { AllByRecursion IsEntry (listed (list_at entry_at count bytes.now)) }
    ensures short { length result.now < 2 ^ 18 }
{
    bytes
}

impl<'a> Items<'a> {
    /// No entry.
    #[tactic(auto, unfolding(crate::specs::Reading::list_at))]
    pub fn none() -> Items<'a>
        ensures { result ≡ [] }
    {
        Items {
            count: 0,
            bytes: &[],
        }
    }

    /// The entries that are spelled in these bytes, one behind the other, so many of them; `None` where the
    /// bytes spell no such entries.
    pub fn new(count: u8, bytes: &'a [u8]) -> Option<Items<'a>>
        ensures read { SomeIff result (is_whole (list_at entry_at count bytes.now) ≡ true) (listed (list_at entry_at count bytes.now)) }
        ensures spelled { (es : List EntryValue) → AllByRecursion IsEntry es → length es ≡ count → bytes.now ≡ flat_map entry_bytes es → result ≡ Some es }
    {
        let mut ahead = Reader::new(bytes);
        match items_at(count, &mut ahead) {
            Ok(items) if ahead.rest().is_empty() => Some(items),
            _ => None,
        }
    }

    /// How many entries there are.
    pub fn len(&self) -> usize
        ensures count { result ≡ length self.now }
        ensures few { result ≤ 255 }
    {
        self.count as usize
    }

    /// Their spellings, one behind the other.
    pub fn text(&self) -> &'a [u8]
        ensures text { result.now ≡ flat_map entry_bytes self.now }
        ensures fits { AllByRecursion IsEntry self.now }
        ensures short { length result.now < 2 ^ 18 }
    {
        items_text(self.count, self.bytes)
    }

    // The same entries once more.
    pub(crate) fn again(&self) -> Items<'a>
        ensures { result ≡ self.now }
    {
        Items {
            count: self.count,
            bytes: self.bytes,
        }
    }

    /// Takes the first entry off; `None` where none is left.
    pub fn take_first(&mut self) -> Option<Entry<'a>>
        ensures first { self.old ≡ option_to_list result ++ self.new }
        ensures end { IfNone result (self.old ≡ []) }
    {
        if self.count == 0 {
            return None;
        }
        let mut from = Reader::new(self.bytes);
        match entry_at(&mut from) {
            Ok(entry) => {
                self.count -= 1;
                self.bytes = from.rest();
                Some(entry)
            }
            Err(_) => unreachable!(),
        }
    }
}

// So many entries at the front.
pub(crate) fn items_at<'a>(count: u8, from: &mut Reader<'a>) -> Result<Items<'a>, WireError>
    ensures gives { IsRead (λ x. (x, from.new)) result (list_at entry_at count from.old) }
    ensures count { IfOk result (λ x. length x ≡ count) }
{
    let bytes = from.rest();
    for _ in 0..count {
        let _ = entry_at(from)?;
    }
    let (front, _) = bytes.split_at(bytes.len() - from.rest().len());
    Ok(Items {
        count,
        bytes: front,
    })
}

/// The entries of a REPORT in lent bytes, spelled one behind the other, each with its place in the view's
/// order before it. Contracts see them as a list of pairs.
#[derive(Drop)]
pub struct Held<'a> {
    len: u8,
    text: &'a [u8],
}

impl<'a> Model for Held<'a> {
    ghost use Rattle.std.specs.Prelude.{ℕ, List, ◌≡◌, true};
    ghost use Rattle.wire_values.specs.Values.{Entry};
    ghost use Rattle.wire_values.specs.Reading.{listed, is_whole, list_at};
    ghost use Rattle.wire_values.specs.Fields.{placed_at};

    ghost Value = { List (ℕ × Entry) };

    ghost view = { λ l. listed (list_at placed_at l.len l.text.now) };

    ghost invariant = { λ l. is_whole (list_at placed_at l.len l.text.now) ≡ true };
}

#[tactic(auto, unfolding(crate::specs::Fields::placed_at))]
fn placed_at<'a>(from: &mut Reader<'a>) -> Result<(Number, Entry<'a>), WireError>
    ensures { IsRead (λ x. (x, from.new)) result (placed_at from.old) }
{
    let place = number_at(1, GREATEST_NUMBER, from)?;
    let entry = entry_at(from)?;
    Ok((place, entry))
}

// The greatest place that may follow the last.
pub(crate) fn highest_next(stable: u64, delivered: u64, last: u64) -> u64
    requires count { delivered ≤ GREATEST_NUMBER }
    requires near { stable ≤ GREATEST_NUMBER }
    ensures { result ≡ highest_next stable delivered last }
{
    if last < delivered {
        last + 1
    } else {
        (stable + WINDOW).min(GREATEST_NUMBER)
    }
}

// What lies in lent bytes that are whole.
fn held_text(count: u8, bytes: &[u8]) -> &[u8]
    requires { is_whole (list_at placed_at count bytes.now) ≡ true }
    ensures text { result.now ≡ flat_map placed_bytes (listed (list_at placed_at count bytes.now)) }
    ensures fits { AllByRecursion IsPlaced (listed (list_at placed_at count bytes.now)) }
    ensures short { length result.now < 2 ^ 18 }
{
    bytes
}

impl<'a> Held<'a> {
    /// No entry.
    #[tactic(auto, unfolding(crate::specs::Reading::list_at))]
    pub fn none() -> Held<'a>
        ensures { result ≡ [] }
    {
        Held { len: 0, text: &[] }
    }

    /// The entries that are spelled in these bytes, one behind the other and each with its place before it,
    /// so many of them; `None` where the bytes spell no such entries.
    pub fn new(count: u8, bytes: &'a [u8]) -> Option<Held<'a>>
        ensures read { SomeIff result (is_whole (list_at placed_at count bytes.now) ≡ true) (listed (list_at placed_at count bytes.now)) }
        ensures spelled { (held : List (ℕ × EntryValue)) → AllByRecursion IsPlaced held → length held ≡ count → bytes.now ≡ flat_map placed_bytes held → result ≡ Some held }
    {
        let mut ahead = Reader::new(bytes);
        for _ in 0..count {
            let Ok(_) = placed_at(&mut ahead) else {
                return None;
            };
        }
        if !ahead.rest().is_empty() {
            return None;
        }
        Some(Held {
            len: count,
            text: bytes,
        })
    }

    /// How many entries there are.
    pub fn len(&self) -> usize
        ensures count { result ≡ length self.now }
        ensures few { result ≤ 255 }
    {
        self.len as usize
    }

    /// Their spellings, one behind the other, each with its place before it.
    pub fn text(&self) -> &'a [u8]
        ensures text { result.now ≡ flat_map placed_bytes self.now }
        ensures fits { AllByRecursion IsPlaced self.now }
        ensures short { length result.now < 2 ^ 18 }
    {
        held_text(self.len, self.text)
    }

    // The same entries once more.
    pub(crate) fn again(&self) -> Held<'a>
        ensures { result ≡ self.now }
    {
        Held {
            len: self.len,
            text: self.text,
        }
    }

    /// Takes the first entry off, with its place; `None` where none is left.
    pub fn take_first(&mut self) -> Option<(Number, Entry<'a>)>
        ensures first { self.old ≡ option_to_list result ++ self.new }
        ensures end { IfNone result (self.old ≡ []) }
    {
        if self.len == 0 {
            return None;
        }
        let mut from = Reader::new(self.text);
        match placed_at(&mut from) {
            Ok(placed) => {
                self.len -= 1;
                self.text = from.rest();
                Some(placed)
            }
            Err(_) => unreachable!(),
        }
    }
}

// A report's entries at the front.
pub(crate) fn held_at<'a>(
    stable: u64,
    delivered: u64,
    count: u8,
    from: &mut Reader<'a>,
) -> Result<Held<'a>, WireError>
    requires count { delivered ≤ GREATEST_NUMBER }
    requires near { stable ≤ GREATEST_NUMBER }
    ensures gives { IsRead (λ x. (x, from.new)) result (held_at stable delivered stable count from.old) }
    ensures count { IfOk result (λ x. length x ≡ count) }
    ensures rising { IfOk result (λ x. are_held stable delivered stable x ≡ true) }
{
    let bytes = from.rest();
    let mut last = stable;
    for _ in 0..count {
        let highest = highest_next(stable, delivered, last);
        last = from.u64(last + 1, highest, WireError::Value)?;
        let _ = entry_at(from)?;
    }
    let (text, _) = bytes.split_at(bytes.len() - from.rest().len());
    Ok(Held { len: count, text })
}
