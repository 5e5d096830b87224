//! What nodes say of themselves to each other, beside the packets of their members (docs/WIRE.md, "Words").

ghost use Rattle.std.specs.Prelude.{◌≡◌, ◌≤◌, ◌+◌, ◌++◌, Ok, length, vec_len, vec_capacity, IsTrue, OnOk, OnErr};
ghost use Rattle.wire_values.specs.declared.packet.Packet.{Packet};
ghost use Rattle.wire_values.specs.Reading.{IsRead};
ghost use Rattle.wire.specs.Packets.{Spells};
ghost use Rattle.udp_net.specs.declared.word.Word.{Word as WordValue};
ghost use Rattle.udp_net.specs.Words.{IsWord, echo_bytes, first_word, history_at, history_bytes, place_flag, place_bytes, version_at, version_number, word_bytes, word_head, said_bytes, echo_at, place_at, said_at, word_at, word_of, begins_as_word};

use crate::WORD;
use address::limits::MEMBERS;
use address::{Address, Node, ViewId};
use big_endian::{put, put_address, put_u8, put_u16, put_u64};
use std::alloc::AllocError;
use wire_values::{GroupName, Reader, WireError, group_at};

// The first two bytes of a word, `VF`, as a number. A packet begins with others (`address::limits::MAGIC`).
pub(crate) const WORD_MAGIC: u16 = 22_086;

// The first version of the format of words, and the latest.
pub(crate) const FIRST_VERSION: u8 = 1;

pub(crate) const WORD_VERSION: u8 = 2;

// The greatest time of a clock in a word, in milliseconds.
pub(crate) const GREATEST_CLOCK: u64 = u64::MAX;

/// The version of the format of a word (docs/WIRE.md, "Words").
#[derive(Clone, Copy, PartialEq, Eq)]
pub enum WordVersion {
    /// Version 1: it tells no history.
    First,
    /// Version 2: it tells the history of a view.
    Second,
}

/// What a node says of itself to another: a datagram that spells no packet, and is handed to no member (docs/WIRE.md, "Words").
#[derive(Clone, Copy, PartialEq, Eq)]
pub struct Word {
    /// The version of its format.
    pub version: WordVersion,
    /// The address of its member.
    pub source: Address,
    /// Its own clock when it said so, in milliseconds.
    pub said: u64,
    /// The latest word of the node that it is for, of those that had come by then; `None` if none had.
    pub echo: Option<Echo>,
    /// The view that its member is in; `None` if it looks for one.
    pub place: Option<Place>,
}

/// A word that came.
#[derive(Clone, Copy, PartialEq, Eq)]
pub struct Echo {
    /// Who said it.
    pub address: Address,
    /// The clock of that node when it was said, in milliseconds.
    pub said: u64,
}

/// A view that a node is in.
#[derive(Clone, Copy, PartialEq, Eq)]
pub struct Place {
    /// The view's id.
    pub view: ViewId,
    /// How many nodes are in it, 1 to `address::limits::MEMBERS`: the one that says so, and those whose fresh words say that they are.
    pub members: u8,
    /// Whether the one that says so is the view's coordinator, and wants to go to no other view.
    pub stays: bool,
    /// The history of the view, as far as the one that says so knows it: the counter of the latest view of its lineage in which a message was delivered; 0 for none, and in a
    /// word of version 1.
    pub history: u64,
}

/// What words told of a node.
#[derive(Clone, Copy)]
pub struct Neighbour {
    /// The node.
    pub node: Node,
    /// Its latest word; `None` if none came for a while.
    pub word: Option<Word>,
    /// Whether it looks for a view, and no word was said to it since it said so.
    pub is_asked: bool,
}

/// Whether a datagram begins as a word does: then it spells no packet.
pub(crate) fn is_word(datagram: &[u8]) -> bool
    ensures begins { result ≡ begins_as_word datagram.now }
    ensures packet { IsTrue result → (p : Packet) → ¬ (Spells p datagram.now) }
{
    datagram.starts_with(b"VF")
}

fn put_echo(echo: Option<Echo>, out: &mut Vec<u8>)
    requires { vec_len out.old + length (echo_bytes echo) ≤ vec_capacity out.old }
    ensures items { out.new.items ≡ out.old.items ++ echo_bytes echo }
    ensures room { vec_capacity out.old ≤ vec_capacity out.new }
{
    let Some(echo) = echo else {
        put_u8(0, out);
        return;
    };
    put_u8(1, out);
    put_address(echo.address, out);
    put_u64(echo.said, out);
}

fn place_flag(stays: bool) -> u8
    ensures { result ≡ place_flag stays }
{
    if stays { 2 } else { 1 }
}

impl WordVersion {
    /// Its number.
    pub(crate) fn number(self) -> u8
        ensures { result ≡ version_number self }
    {
        match self {
            WordVersion::First => FIRST_VERSION,
            WordVersion::Second => WORD_VERSION,
        }
    }
}

// The history that a word of a version tells.
fn put_history(version: WordVersion, history: u64, out: &mut Vec<u8>)
    requires { vec_len out.old + length (history_bytes version history) ≤ vec_capacity out.old }
    ensures items { out.new.items ≡ out.old.items ++ history_bytes version history }
    ensures room { vec_capacity out.old ≤ vec_capacity out.new }
{
    match version {
        WordVersion::First => {}
        WordVersion::Second => put_u64(history, out),
    }
}

fn put_place(version: WordVersion, place: Option<Place>, out: &mut Vec<u8>)
    requires { vec_len out.old + length (place_bytes version place) ≤ vec_capacity out.old }
    ensures items { out.new.items ≡ out.old.items ++ place_bytes version place }
    ensures room { vec_capacity out.old ≤ vec_capacity out.new }
{
    let Some(place) = place else {
        put_u8(0, out);
        return;
    };
    put_u8(place_flag(place.stays), out);
    put_u64(place.view.counter(), out);
    put_address(place.view.creator(), out);
    put_u8(place.members, out);
    put_history(version, place.history, out);
}

// What stands in a word before what is said.
fn put_head(version: WordVersion, group: &GroupName<'_>, out: &mut Vec<u8>)
    requires { vec_len out.old + length (word_head version group.now) ≤ vec_capacity out.old }
    ensures items { out.new.items ≡ out.old.items ++ word_head version group.now }
    ensures room { vec_capacity out.old ≤ vec_capacity out.new }
{
    let name = group.as_slice();
    put_u16(WORD_MAGIC, out);
    put_u8(version.number(), out);
    put_u8(name.len() as u8, out);
    put(name, out);
}

// What is said in a word.
fn put_said(word: &Word, out: &mut Vec<u8>)
    requires { vec_len out.old + length (said_bytes word.now) ≤ vec_capacity out.old }
    ensures items { out.new.items ≡ out.old.items ++ said_bytes word.now }
    ensures room { vec_capacity out.old ≤ vec_capacity out.new }
{
    put_address(word.source, out);
    put_u64(word.said, out);
    put_echo(word.echo, out);
    put_place(word.version, word.place, out);
}

#[tactic(auto, unfolding(crate::specs::Words::echo_at))]
fn echo_at(from: &mut Reader<'_>) -> Result<Option<Echo>, WireError>
    ensures { IsRead (λ x. (x, from.new)) result (echo_at from.old) }
{
    if from.u8(0, 1, WireError::Value)? == 0 {
        return Ok(None);
    }
    let address = from.address()?;
    let said = from.u64(0, GREATEST_CLOCK, WireError::Value)?;
    Ok(Some(Echo { address, said }))
}

// The history of a view that a word of a version tells; none is told by version 1, and none is later than the view.
#[tactic(auto, unfolding(crate::specs::Words::history_at))]
fn history_at(version: WordVersion, view: ViewId, from: &mut Reader<'_>) -> Result<u64, WireError>
    ensures { IsRead (λ x. (x, from.new)) result (history_at version view from.old) }
{
    match version {
        WordVersion::First => Ok(0),
        WordVersion::Second => from.u64(0, view.counter(), WireError::Value),
    }
}

#[tactic(auto, unfolding(crate::specs::Words::place_at))]
fn place_at(version: WordVersion, from: &mut Reader<'_>) -> Result<Option<Place>, WireError>
    ensures { IsRead (λ x. (x, from.new)) result (place_at version from.old) }
{
    let flag = from.u8(0, 2, WireError::Value)?;
    if flag == 0 {
        return Ok(None);
    }
    let view = from.view_id()?;
    let members = from.u8(1, MEMBERS as u8, WireError::Value)?;
    let history = history_at(version, view, from)?;
    Ok(Some(Place {
        view,
        members,
        stays: flag == 2,
        history,
    }))
}

#[tactic(auto, unfolding(crate::specs::Words::said_at))]
fn said_at(version: WordVersion, from: &mut Reader<'_>) -> Result<Word, WireError>
    ensures { IsRead (λ x. (x, from.new)) result (said_at version from.old) }
{
    let source = from.address()?;
    let said = from.u64(0, GREATEST_CLOCK, WireError::Value)?;
    let echo = echo_at(from)?;
    let place = place_at(version, from)?;
    Ok(Word {
        version,
        source,
        said,
        echo,
        place,
    })
}

#[tactic(auto, unfolding(crate::specs::Words::version_at))]
fn version_at(from: &mut Reader<'_>) -> Result<WordVersion, WireError>
    ensures { IsRead (λ x. (x, from.new)) result (version_at from.old) }
{
    let _ = from.u16(WORD_MAGIC, WORD_MAGIC, WireError::NotOurs)?;
    let number = from.u8(FIRST_VERSION, WORD_VERSION, WireError::Version)?;
    Ok(if number == FIRST_VERSION {
        WordVersion::First
    } else {
        WordVersion::Second
    })
}

#[tactic(auto, unfolding(crate::specs::Words::word_at))]
fn word_at(group: &GroupName<'_>, from: &mut Reader<'_>) -> Result<Word, WireError>
    ensures { IsRead (λ x. (x, from.new)) result (word_at group.now from.old) }
{
    let version = version_at(from)?;
    let name = group_at(from)?;
    if name.as_slice() != group.as_slice() {
        return Err(WireError::Value);
    }
    said_at(version, from)
}

#[tactic(auto, unfolding(crate::specs::Words::word_of))]
fn word_of(datagram: &[u8], group: &GroupName<'_>) -> Result<Word, WireError>
    ensures { result ≡ word_of group.now datagram.now }
{
    let mut from = Reader::new(datagram);
    let word = word_at(group, &mut from)?;
    if !from.rest().is_empty() {
        return Err(WireError::Trailing);
    }
    Ok(word)
}

impl Word {
    /// The same in version 1, which tells no history.
    pub(crate) fn in_first_version(&self) -> Word
        ensures { result ≡ first_word self.now }
    {
        let place = match self.place {
            Some(place) => Some(Place {
                view: place.view,
                members: place.members,
                stays: place.stays,
                history: 0,
            }),
            None => None,
        };
        Word {
            version: WordVersion::First,
            source: self.source,
            said: self.said,
            echo: self.echo,
            place,
        }
    }

    /// Appends its spelling in a group: at most `WORD` bytes. An error for want of memory leaves what is there as it was.
    pub(crate) fn spell(&self, group: &GroupName<'_>, out: &mut Vec<u8>) -> Result<(), AllocError>
        ensures ok { OnOk result (out.new.items ≡ out.old.items ++ word_bytes group.now self.now) }
        ensures err { OnErr result (out.new.items ≡ out.old.items) }
    {
        let _name = group.as_slice();
        out.reserve(WORD)?;
        put_head(self.version, group, out);
        put_said(self, out);
        Ok(())
    }

    /// The word of a group that a datagram spells, or the refusal of its first field that fails: 25 for a word of another group. Takes no memory.
    pub(crate) fn read(datagram: &[u8], group: &GroupName<'_>) -> Result<Word, WireError>
        ensures exact { result ≡ word_of group.now datagram.now }
        // Each word is read from its spelling.
        ensures spelled { (w : WordValue) → IsWord w → datagram.now ≡ word_bytes group.now w → result ≡ Ok w }
    {
        let _name = group.as_slice();
        word_of(datagram, group)
    }
}
