//! The fields of packets by themselves (docs/WIRE.md): each is read off the front, and what is left is left.

use crate::fixtures::address;
use crate::wire_samples::{
    ACK, FLUSH, FORWARD, INSTALL, JOIN, ORDER, REPORT, STATE, second_view, unhex,
};
use address::limits::GREATEST_NUMBER;
use std::alloc::Global;
use wire_values::{
    GivenState, Held, Reader, WireError, chunk_at, count_at, entry_at, group_at, install_at,
    number_at, payload_at, report_at, view_at,
};

/// How many bytes stand before the body in a packet of the group `world`.
const BODY: usize = 22;

/// The bytes behind the first `front` of a packet that stands in hexadecimal.
fn behind(alloc: Global, text: &[u8], front: usize) -> Vec<u8> {
    let mut behind = Vec::new(alloc);
    if let Ok(bytes) = unhex(alloc, text) {
        for byte in bytes.iter().skip(front) {
            if behind.push(*byte).is_err() {
                break;
            }
        }
    }
    behind
}

#[test]
fn numbers_are_read_one_behind_the_other(rt: HostRuntime) {
    let mut from = Reader::new(&[7, 1, 2, 0, 0, 1, 0, 0, 0, 0, 0, 0, 0, 0, 9, 8, 6]);
    let kind = WireError::Kind;
    assert!(rt; from.u8(1, 9, kind) == Ok(7), "one byte");
    assert!(rt; from.u16(1, 999, kind) == Ok(258), "two bytes");
    assert!(rt; from.u32(1, 999, kind) == Ok(256), "four bytes");
    assert!(rt; from.u64(1, 999, kind) == Ok(9), "eight bytes");
    assert!(rt; from.bytes(1) == Ok([8].as_slice()), "as it is");
    assert!(rt; from.rest() == [6].as_slice(), "one byte is left");
}

#[test]
fn a_group_and_an_address_are_read(rt: HostRuntime) {
    let bytes = behind(rt.alloc(), JOIN, 4);
    let mut from = Reader::new(&bytes);
    let group = group_at(&mut from).expect(&rt, "a name");
    assert!(rt; group.as_slice() == b"world".as_slice(), "its name");
    assert!(rt; from.address() == Ok(address(2, 1)), "the source");
}

#[test]
fn an_order_is_read_field_by_field(rt: HostRuntime) {
    let bytes = behind(rt.alloc(), ORDER, BODY);
    let mut from = Reader::new(&bytes);
    assert!(rt; from.view_id() == Ok(second_view()), "its view");
    let place = number_at(1, GREATEST_NUMBER, &mut from).expect(&rt, "its place");
    assert_eq!(rt; place.get(), 1, "the first place");
    let entry = entry_at(&mut from).expect(&rt, "its entry");
    assert_eq!(rt; entry.number.get(), 1, "the first of its sender");
    let payload = entry.payload.as_slice();
    assert!(rt; payload == b"a".as_slice(), "its payload");
    assert!(rt; from.rest().is_empty(), "nothing is left");
}

#[test]
fn a_count_a_payload_and_a_chunk_are_read(rt: HostRuntime) {
    let alloc = rt.alloc();
    let bytes = behind(alloc, ACK, BODY + 14);
    let count = count_at(0, GREATEST_NUMBER, &mut Reader::new(&bytes)).expect(&rt, "a count");
    assert_eq!(rt; count.get(), 9, "how many were delivered");
    let bytes = behind(alloc, FORWARD, BODY + 22);
    let payload = payload_at(&mut Reader::new(&bytes)).expect(&rt, "a payload");
    assert!(rt; payload.as_slice() == b"hi".as_slice(), "its bytes");
    let bytes = behind(alloc, STATE, BODY + 14);
    let chunk = chunk_at(&mut Reader::new(&bytes)).expect(&rt, "a chunk");
    assert_eq!(rt; chunk.total().get(), 32_769, "the total");
    assert_eq!(rt; chunk.index(), 2, "its index");
    assert!(rt; chunk.as_slice() == [7].as_slice(), "its byte");
}

#[test]
fn a_view_and_an_install_are_read(rt: HostRuntime) {
    let bytes = behind(rt.alloc(), FLUSH, BODY);
    let view = view_at(&mut Reader::new(&bytes)).expect(&rt, "a view");
    assert!(rt; view.id() == second_view(), "its id");
    assert_eq!(rt; view.members().len(), 2, "how many members it has");
    let bytes = behind(rt.alloc(), INSTALL, BODY);
    let install = install_at(&mut Reader::new(&bytes)).expect(&rt, "an install");
    assert_eq!(rt; install.base().get(), 6, "its base");
    assert_eq!(rt; install.items().len(), 1, "how many messages");
    let state = match install.state() {
        GivenState::Whole(state) => state.as_slice(),
        _ => &[],
    };
    assert!(rt; state == [1, 2, 3].as_slice(), "its state");
}

/// Whether the next entry held has a place, a number and a payload.
fn holds(held: &mut Held<'_>, place: u64, number: u64, payload: &[u8]) -> bool {
    match held.take_first() {
        Some((at, entry)) => {
            at.get() == place && entry.number.get() == number && entry.payload.as_slice() == payload
        }
        None => false,
    }
}

#[test]
fn a_report_is_read(rt: HostRuntime) {
    let bytes = behind(rt.alloc(), REPORT, BODY + 14);
    let report = report_at(&mut Reader::new(&bytes)).expect(&rt, "a report");
    assert_eq!(rt; report.stable().get(), 4, "how many are stable");
    assert_eq!(rt; report.delivered().get(), 5, "and delivered");
    let mut held = report.held();
    assert_eq!(rt; held.len(), 2, "how many entries are held");
    assert!(rt; holds(&mut held, 5, 1, b"a"), "the first entry held");
    assert!(rt; holds(&mut held, 8, 2, b""), "the second entry held");
}
