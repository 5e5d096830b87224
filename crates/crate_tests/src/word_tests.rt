//! Words of both versions, by hand from the format's table (docs/WIRE.md, "Words"), to the byte: what a net says, and what it hears.

use crate::fixtures::{first_at, view_id};
use memory_nets::{MemoryNet, Wire, Wires};
use std::alloc::AllocGlobal;
use std::cell::RefCell;
use std::process::Abort;
use udp_net::{Echo, FOUR, Net, Place, SievedNet, Word, WordVersion, settings_of};

/// 2.1 says at its millisecond 7 that it answers what 1.1 said at 5, and that it is in the view 3@1.1 with 2 members, whose history is 2.
const SECOND: &[u8] =
    b"VF\x02\x04chat\0\x02\0\0\0\x01\0\0\0\0\0\0\0\x07\x01\0\x01\0\0\0\x01\0\0\0\0\0\0\0\x05\x01\0\0\0\0\0\0\0\x03\0\x01\0\0\0\x01\x02\0\0\0\0\0\0\0\x02";

/// The same in version 1.
const FIRST: &[u8] =
    b"VF\x01\x04chat\0\x02\0\0\0\x01\0\0\0\0\0\0\0\x07\x01\0\x01\0\0\0\x01\0\0\0\0\0\0\0\x05\x01\0\0\0\0\0\0\0\x03\0\x01\0\0\0\x01\x02";

/// The same in version 1, but said later.
const LATER: &[u8] =
    b"VF\x01\x04chat\0\x02\0\0\0\x01\0\0\0\0\0\0\0\x08\x01\0\x01\0\0\0\x01\0\0\0\0\0\0\0\x05\x01\0\0\0\0\0\0\0\x03\0\x01\0\0\0\x01\x02";

/// The same in version 1, of 2.2.
const AGAIN: &[u8] =
    b"VF\x01\x04chat\0\x02\0\0\0\x02\0\0\0\0\0\0\0\x07\x01\0\x01\0\0\0\x01\0\0\0\0\0\0\0\x05\x01\0\0\0\0\0\0\0\x03\0\x01\0\0\0\x01\x02";

/// Its history is 4: later than the view.
const ABSURD: &[u8] =
    b"VF\x02\x04chat\0\x02\0\0\0\x01\0\0\0\0\0\0\0\x09\x01\0\x01\0\0\0\x01\0\0\0\0\0\0\0\x05\x01\0\0\0\0\0\0\0\x03\0\x01\0\0\0\x01\x02\0\0\0\0\0\0\0\x04";

// The word that these bytes are, in a version, with a history.
fn word(version: WordVersion, history: u64) -> Word {
    Word {
        version,
        source: first_at(2),
        said: 7,
        echo: Some(Echo {
            address: first_at(1),
            said: 5,
        }),
        place: Some(Place {
            view: view_id(3),
            members: 2,
            stays: false,
            history,
        }),
    }
}

// Whether this is the next datagram that a net gives.
fn gives(net: &mut Wire<'_>, datagram: &[u8]) -> bool {
    let mut buffer = [0; 128];
    match net.receive(&mut buffer) {
        Ok(Some(count)) => &buffer[..count] == datagram,
        _ => false,
    }
}

// The net of node 1, to which these datagrams came.
fn hearing(rt: &(impl Abort + AllocGlobal), datagrams: &[&[u8]]) -> SievedNet<MemoryNet> {
    let settings = settings_of(rt.alloc(), FOUR).expect(rt, "memory");
    let mut inner = MemoryNet::new(rt.alloc());
    for datagram in datagrams {
        inner.put(datagram).expect(rt, "memory");
    }
    let mut net = SievedNet::new(rt.alloc(), inner, &settings).expect(rt, "memory");
    let _ = net.receive(&mut [0; 128]);
    net
}

// The word of node 2 that is kept where these datagrams came.
fn kept(rt: &(impl Abort + AllocGlobal), datagrams: &[&[u8]]) -> Option<Word> {
    let net = hearing(rt, datagrams);
    for neighbour in net.words() {
        if neighbour.node == first_at(2).node() {
            return neighbour.word;
        }
    }
    None
}

#[test]
fn says_both_versions(rt: HostRuntime) {
    let wires = RefCell::new(Wires::new(rt.alloc()));
    let settings = settings_of(rt.alloc(), FOUR).expect(&rt, "memory");
    let (one, two) = (first_at(1).node(), first_at(2).node());
    let inner = Wire::new(&wires, two);
    let mut net = SievedNet::new(rt.alloc(), inner, &settings).expect(&rt, "memory");
    net.say(one, &word(WordVersion::Second, 2));
    let mut other = Wire::new(&wires, one);
    assert!(rt; gives(&mut other, SECOND), "version 2 goes first");
    assert!(rt; gives(&mut other, FIRST), "version 1 goes behind it");
    assert!(rt; !gives(&mut other, FIRST), "no more goes");
}

#[test]
fn hears_both_versions(rt: HostRuntime) {
    let found = kept(&rt, &[FIRST]);
    assert!(rt;
        found == Some(word(WordVersion::First, 0)),
        "one of version 1 is read"
    );
    let found = kept(&rt, &[SECOND]);
    assert!(rt;
        found == Some(word(WordVersion::Second, 2)),
        "one of version 2 is read"
    );
    let found = kept(&rt, &[FIRST, SECOND]);
    assert!(rt;
        found == Some(word(WordVersion::Second, 2)),
        "version 2 counts"
    );
    let found = kept(&rt, &[SECOND, LATER]);
    assert!(rt;
        found == Some(word(WordVersion::Second, 2)),
        "version 2 stays"
    );
    let found = kept(&rt, &[SECOND, AGAIN]);
    let is_first = found.is_some_and(|word| word.version == WordVersion::First);
    assert!(rt; is_first, "one of a later start counts, of either version");
    let absurd = hearing(&rt, &[ABSURD]);
    assert_eq!(rt;
        absurd.strange(),
        1,
        "a history later than its view is strange"
    );
}
