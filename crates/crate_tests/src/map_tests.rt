use crate::fixtures::{first_at, first_view, token};
use address::ViewId;
use keyed_state::KeyBytes;
use replicated_map::{
    Command, Outcome, ReplicatedMap, ValueBytes, one_encoding, one_spelling, outcomes, replaces,
    sizes, stamps_spell, versions,
};
use state_transfer::Receiver;
use std::alloc::Global;

// By hand from the tables of docs/RECEIVERS.md: put `xy` for `a`, sent in the view 1@1.1.
const PUT_A: &[u8] = b"\x01\x00\x00\x00\x00\x00\x00\x00\x01\x00\x01\x00\x00\x00\x01\x01a\x00\x02xy";

#[test]
fn a_put_that_is_stamped_anew_spells_that_view(rt: HostRuntime) {
    one_encoding();
    one_spelling();
    stamps_spell();
    let put = Command::Put {
        view: ViewId::new(3, first_at(1)).unwrap(),
        key: KeyBytes::new(b"a").unwrap(),
        value: ValueBytes::new(b"xy").unwrap(),
    };
    let mut payload = Vec::new(rt.alloc());
    assert!(rt;
        put.in_view(first_view()).encode(&mut payload).is_ok(),
        "there is memory"
    );
    assert!(rt; payload.as_slice() == PUT_A, "the payload");
}

// Whether a message will be stored under the first version.
fn will_be_stored(alloc: Global, map: &ReplicatedMap, payload: &[u8]) -> bool {
    let outcome = map.outcome(alloc, payload);
    match &outcome {
        Ok(Outcome::Stored(version)) => *version == token(1),
        _ => false,
    }
}

// Whether a key has a value of the first version.
fn has(map: &ReplicatedMap, key: &[u8], value: &[u8]) -> bool {
    match map.get(key) {
        Some(held) => held.value.as_slice() == value && held.version == token(1),
        None => false,
    }
}

#[test]
fn a_put_is_an_entry_with_the_next_version(rt: HostRuntime) {
    let alloc = rt.alloc();
    versions();
    outcomes();
    replaces();
    sizes();
    let mut map = ReplicatedMap::opening(alloc).ok().expect(&rt, "a map");
    assert!(rt; map.is_empty(), "no entry yet");
    assert!(rt; will_be_stored(alloc, &map, PUT_A), "what comes of it");
    assert!(rt; map.receive(first_at(1), PUT_A).is_ok(), "there is memory");
    assert!(rt; has(&map, b"a", b"xy"), "the entry");
    assert!(rt; map.last() == token(1), "the last version");
}
