//! Packets as the content of a frame.

ghost use Rattle.std.specs.Prelude.{◌≡◌, ◌≤◌, ◌<◌, ◌+◌, ◌-◌, ◌++◌, ◌^◌, ℕ, List, true, length, take, drop, vec_len, vec_capacity, IfOk, IfSome};
ghost use Rattle.byteorder.specs.Endian.{big_number};
ghost use Rattle.frames.specs.Frames.{bytes_behind, shared_front, shared_within, IsRead, IsShort, StandsFirst};

use crate::row::Row;
use crate::{MOST_SHARED, WHOLE};
use big_endian::{put, put_u8, put_u16};
use byteorder::{BigEndian, ByteOrder};
use std::alloc::AllocError;

// The number that the eight bytes from a place on spell.
fn eight_at(text: &[u8], place: usize) -> u64
    requires { place + 8 ≤ length text.now }
    ensures { result ≡ big_number 8 (drop place text.now) }
{
    let (_, rest) = text.split_at(place);
    BigEndian::read_u64(rest)
}

// How many bytes two texts have in common at the front, counted by eight, where both have so many.
fn shared_groups(last: &[u8], packet: &[u8], most: usize) -> usize
    requires most { most ≤ 255 }
    requires first { most ≤ length last.now }
    requires second { most ≤ length packet.now }
    ensures most { result ≤ most }
    ensures shares { shared_front last.now packet.now ≡ result + shared_within (255 - result) (drop result last.now) (drop result packet.now) }
{
    for group in 0..most / 8 {
        let place = 8 * group;
        if eight_at(last, place) != eight_at(packet, place) {
            return place;
        }
    }
    8 * (most / 8)
}

// How many bytes a packet has in common with the one before it, at the front.
pub(crate) fn shared_front(last: &[u8], packet: &[u8]) -> usize
    ensures is { result ≡ shared_front last.now packet.now }
    ensures most { result ≤ 255 }
    ensures within { result ≤ length packet.now }
{
    let most = MOST_SHARED.min(last.len()).min(packet.len());
    for place in shared_groups(last, packet, most)..most {
        if last[place] != packet[place] {
            return place;
        }
    }
    most
}

// Whether two texts are the same.
pub(crate) fn is_same_text(one: &[u8], other: &[u8]) -> bool
    ensures { result ≡ true → one.now ≡ other.now }
{
    if one.len() != other.len() {
        return false;
    }
    let shared = shared_front(one, other);
    if shared < MOST_SHARED {
        return shared == one.len();
    }
    let (_, rest) = one.split_at(MOST_SHARED);
    let (_, other_rest) = other.split_at(MOST_SHARED);
    is_same_text(rest, other_rest)
}

// Appends a packet behind one with which it has so many bytes in common: how many these are, how many others it has, and these.
pub(crate) fn put_packet(shared: usize, packet: &[u8], out: &mut Vec<u8>)
    requires most { shared ≤ 255 }
    requires within { shared ≤ length packet.now }
    requires short { IsShort packet.now }
    requires room { vec_len out.old + (length packet.now - shared + 3) ≤ vec_capacity out.old }
    ensures items { out.new.items ≡ out.old.items ++ bytes_behind shared packet.now }
    ensures room { vec_capacity out.old ≤ vec_capacity out.new }
{
    let (_, others) = packet.split_at(shared);
    put_u8(shared as u8, out);
    put_u16(others.len() as u16, out);
    put(others, out);
}

// How many bytes the first packet of a content shares with the one before it, and how many others it has, where these stand there whole.
fn first_lengths(content: &[u8]) -> Option<(usize, usize)>
    ensures stands { IfSome result (λ n. StandsFirst n.0 n.1 content.now) }
    ensures most { IfSome result (λ n. (n.0 ≤ 255) × (n.1 ≤ 1353)) }
{
    if content.len() < 3 {
        return None;
    }
    let shared = usize::from(content[0]);
    let others = usize::from(BigEndian::read_u16(&content[1..]));
    if others > WHOLE || content.len() - 3 < others {
        return None;
    }
    Some((shared, others))
}

// Whether a packet that has so many bytes of the one before it, and then others, shares no more with that.
fn shares_no_more(last: &[u8], shared: usize, others: &[u8]) -> bool
    requires { shared ≤ 255 }
    ensures within { result ≡ true → shared ≤ length last.now }
    ensures most { result ≡ true → shared_front last.now (take shared last.now ++ others.now) ≡ shared }
{
    if shared > last.len() {
        return false;
    }
    if shared == MOST_SHARED {
        return true;
    }
    match (last.get(shared), others.first()) {
        (Some(one), Some(other)) => one != other,
        _ => true,
    }
}

// Puts the packets of a content that stand behind one there behind others, and answers whether it has packets to its end; some of them where it has not. The one before is the last of
// them then.
pub(crate) fn read_packets(
    last: &mut Vec<u8>,
    content: &[u8],
    packets: &mut Row,
) -> Result<bool, AllocError>
    ensures { IfOk result (λ good. good ≡ true → IsRead last.old.items packets.old content.now packets.new) }
{
    if content.is_empty() {
        return Ok(true);
    }
    let Some((shared, count)) = first_lengths(content) else {
        return Ok(false);
    };
    let (_, behind) = content.split_at(3);
    let (others, rest) = behind.split_at(count);
    if !shares_no_more(last.as_slice(), shared, others) {
        return Ok(false);
    }
    last.truncate(shared);
    last.extend_from_slice(others)?;
    packets.push(last.as_slice())?;
    read_packets(last, rest, packets)
}
