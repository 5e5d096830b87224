use crate::fixtures::{address, listed};
use crate::wire_samples::{is_exact, second_view};
use address::Address;
use std::alloc::Global;
use wire::{encode, put_entry};
use wire_values::{
    Body, Chunk, Count, Entry, GivenState, GroupName, Held, Install, Items, Members, Number,
    Packet, Payload, Report, Roster, State, Total,
};

/// The bytes of a packet with the longest name, from the greatest address.
fn spelled(alloc: Global, body: Body<'_>) -> Option<Vec<u8>> {
    let packet = Packet {
        group: GroupName::new(b"abcdefghijklmnopqrstuvwxyz-_ABCD")?,
        source: address(65_535, 4_294_967_295),
        destination: address(1, 1),
        body,
    };
    let mut out = Vec::new(alloc);
    encode(&packet, &mut out).ok()?;
    Some(out)
}

/// Whether a body makes a packet of a kind and of a length, which is read and written back.
fn has_length(alloc: Global, body: Body<'_>, kind: u8, length: usize) -> bool {
    match spelled(alloc, body) {
        Some(bytes) => bytes.len() == length && is_exact(alloc, &bytes, kind),
        None => false,
    }
}

/// Puts the entry of 1.1 at a number with 512 bytes, behind its place where it has one.
fn put(value: u64, has_place: bool, out: &mut Vec<u8>) -> Option<()> {
    let number = Number::new(value)?;
    let payload = [7u8; 512];
    let entry = Entry {
        sender: address(1, 1),
        number,
        payload: Payload::new(&payload)?,
    };
    let place = if has_place { Some(number) } else { None };
    put_entry(place, &entry, out).ok()
}

/// The 64 longest entries, from the number 1, with their places or without.
fn entries(alloc: Global, have_places: bool) -> Option<Vec<u8>> {
    let mut text = Vec::new(alloc);
    for value in 1..=64 {
        put(value, have_places, &mut text)?;
    }
    Some(text)
}

/// The report of these entries, with all of the 64 delivered.
fn report(text: &[u8]) -> Option<Body<'_>> {
    let held = Held::new(64, text)?;
    Some(Body::Report {
        proposal: second_view(),
        report: Report::new(second_view(), Count::zero(), Count::new(64)?, held)?,
    })
}

#[test]
fn the_longest_report_has_34399_bytes(rt: HostRuntime) {
    let text = entries(rt.alloc(), true).expect(&rt, "the entries");
    let body = report(&text).expect(&rt, "the report");
    assert!(rt; has_length(rt.alloc(), body, 11, 34_399));
}

/// The install of all members with these entries and a state.
fn install<'a>(members: &[Address], text: &'a [u8], state: &'a [u8]) -> Option<Body<'a>> {
    let view = Roster::new(second_view(), members)?;
    let together = Members::from_slice(members)?;
    let items = Items::new(64, text)?;
    let given = GivenState::Whole(State::new(state)?);
    let install = Install::new(view, together, Count::zero(), items, given)?;
    Some(Body::Install(install))
}

#[test]
fn the_longest_install_has_38159_bytes(rt: HostRuntime) {
    let nodes = [1, 2, 3, 4, 5, 6, 7, 8, 9, 10, 11, 12, 13, 14, 15, 16];
    let members = listed(rt.alloc(), &nodes).expect(&rt, "the members");
    let text = entries(rt.alloc(), false).expect(&rt, "the entries");
    let state = [9; 4_096];
    let body = install(members.as_slice(), &text, &state).expect(&rt, "the install");
    assert!(rt; has_length(rt.alloc(), body, 12, 38_159));
}

/// The last chunk of the longest state.
fn last_chunk(bytes: &[u8]) -> Option<Body<'_>> {
    Some(Body::State {
        proposal: second_view(),
        chunk: Chunk::new(Total::new(1_048_576)?, 32, bytes)?,
    })
}

#[test]
fn the_longest_state_has_32836_bytes(rt: HostRuntime) {
    let bytes = vec![in rt.alloc(); 9u8; 32_768]
        .ok()
        .expect(&rt, "the bytes");
    let body = last_chunk(&bytes).expect(&rt, "the chunk");
    assert!(rt; has_length(rt.alloc(), body, 14, 32_836));
}
