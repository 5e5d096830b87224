//! Frames between nets in memory (docs/WIRE.md, "Frames"): what goes in one, and what is given where they come again, in another order, or not at all.

use address::Node;
use frames::FramedNet;
use memory_nets::MemoryNet;
use std::alloc::AllocGlobal;
use std::process::Abort;
use udp_net::{Net, NodePort};

fn node(number: u16) -> Node {
    Node::new(number).unwrap_or(Node::new(1).unwrap())
}

fn port(number: u16) -> NodePort {
    NodePort {
        node: node(number),
        port: number,
    }
}

// A net at a node, over a net in memory.
fn net_over(
    rt: &(impl Abort + AllocGlobal),
    inner: MemoryNet,
    number: u16,
) -> FramedNet<MemoryNet> {
    FramedNet::new(
        rt.alloc(),
        inner,
        node(number),
        &[port(1), port(2), port(3)],
        b"key",
        &[u8::try_from(number).unwrap_or(0); 16],
    )
    .expect(rt, "memory")
}

// Puts a copy of some bytes behind others.
fn put(rt: &(impl Abort + AllocGlobal), bytes: &[u8], out: &mut Vec<Vec<u8>>) {
    let copy = Vec::from_slice(rt.alloc(), bytes).expect(rt, "memory");
    out.push(copy).expect(rt, "memory");
}

// The frames that node 1 offers where it sends these packets, each to the node before it.
fn sent(rt: &(impl Abort + AllocGlobal), packets: &[(u16, &[u8])]) -> Vec<Vec<u8>> {
    let mut net = net_over(rt, MemoryNet::new(rt.alloc()), 1);
    for packet in packets {
        net.send(node(packet.0), packet.1);
    }
    net.flush();
    let inner = net.into_inner();
    let mut frames = Vec::new(rt.alloc());
    for listed in inner.listed().unwrap_or(&[]) {
        if let Some(offered) = listed.offered() {
            put(rt, offered.bytes.as_slice(), &mut frames);
        }
    }
    frames
}

// Whether a net gives these packets, and no more.
fn gives(net: &mut FramedNet<MemoryNet>, buffer: &mut [u8], packets: &[&[u8]]) -> bool {
    for packet in packets {
        let Ok(Some(count)) = net.receive(buffer) else {
            return false;
        };
        if &buffer[..count] != *packet {
            return false;
        }
    }
    matches!(net.receive(buffer), Ok(None))
}

// The net in memory to which these frames come.
fn hearing(rt: &(impl Abort + AllocGlobal), frames: &[Vec<u8>]) -> MemoryNet {
    let mut net = MemoryNet::new(rt.alloc());
    for frame in frames {
        net.put(frame.as_slice()).expect(rt, "memory");
    }
    net
}

// How many frames a node refuses to which these come, if it is given these packets, and no more.
fn refused(
    rt: &(impl Abort + AllocGlobal),
    number: u16,
    frames: &[Vec<u8>],
    packets: &[&[u8]],
) -> Option<u64> {
    let mut buffer = vec![in rt.alloc(); 0; 40_001].expect(rt, "memory");
    let mut net = net_over(rt, hearing(rt, frames), number);
    if gives(&mut net, buffer.as_mut_slice(), packets) {
        Some(net.refused())
    } else {
        None
    }
}

// Bytes that differ from their neighbours.
fn long(rt: &(impl Abort + AllocGlobal), length: usize) -> Vec<u8> {
    let mut bytes = Vec::new(rt.alloc());
    for place in 0..length {
        bytes.push((place % 251) as u8).expect(rt, "memory");
    }
    bytes
}

// These frames without those at two places.
fn without(
    rt: &(impl Abort + AllocGlobal),
    frames: &[Vec<u8>],
    one: usize,
    other: usize,
) -> Vec<Vec<u8>> {
    let mut left = Vec::new(rt.alloc());
    for place in 0..frames.len() {
        if place != one && place != other {
            put(rt, frames[place].as_slice(), &mut left);
        }
    }
    left
}

// Each of these frames so many times, the last one first.
fn turned(rt: &(impl Abort + AllocGlobal), frames: &[Vec<u8>], times: u8) -> Vec<Vec<u8>> {
    let mut turned = Vec::new(rt.alloc());
    for frame in frames.iter().rev() {
        for _ in 0..times {
            put(rt, frame.as_slice(), &mut turned);
        }
    }
    turned
}

#[test]
fn small_packets_go_together(rt: HostRuntime) {
    let (one, two): (&[u8], &[u8]) = (b"one", b"two");
    let packets = [(2, one), (1, b"other"), (2, two), (4, b"nobody"), (2, b"")];
    let found = sent(&rt, &packets);
    assert_eq!(rt; found.len(), 2, "how many frames there are");
    assert_eq!(rt; found[1].len(), 28 + 6 + 6 + 3 + 16, "its length");
    let refused = refused(&rt, 2, &found, &[one, two, b""]);
    assert!(rt; refused == Some(1), "the frame for another node");
}

#[test]
fn a_long_packet_goes_in_pieces(rt: HostRuntime) {
    let (first, second) = (long(&rt, 38_159), long(&rt, 1_355));
    let (one, two) = (first.as_slice(), second.as_slice());
    let found = sent(&rt, &[(2, b"before"), (2, one), (2, two), (2, b"behind")]);
    assert_eq!(rt; found.len(), 1 + 29 + 2 + 1, "how many frames");
    assert_eq!(rt; found[1].len(), 1_400, "the length of a piece's");
    let refused = refused(&rt, 2, &found, &[b"before", one, two, b"behind"]);
    assert!(rt; refused == Some(0), "all are given");
}

#[test]
fn frames_come_in_any_order_and_are_taken_once(rt: HostRuntime) {
    let both = long(&rt, 38_159 + 30_000);
    let (one, two) = both.as_slice().split_at(both.len().min(38_159));
    let found = sent(&rt, &[(2, one), (2, two)]);
    assert_eq!(rt; found.len(), 29 + 23, "how many frames there are");
    let found = turned(&rt, &found, 1);
    let once = refused(&rt, 2, &found, &[two, one]);
    assert!(rt; once == Some(0), "the last piece comes first");
    let found = sent(&rt, &[(2, one), (2, b"behind")]);
    let found = turned(&rt, &found, 2);
    let twice = refused(&rt, 2, &found, &[b"behind", one]);
    assert!(rt; twice == Some(30), "each of 30 frames comes twice");
}

#[test]
fn a_packet_that_goes_again_fills_what_was_lost(rt: HostRuntime) {
    let both = long(&rt, 38_159 + 38_160);
    let (one, two) = both.as_slice().split_at(both.len().min(38_159));
    let found = sent(&rt, &[(2, one), (2, two), (2, one)]);
    assert_eq!(rt; found.len(), 3 * 29, "how many frames there are");
    let left = without(&rt, &found, 5, 2 * 29 + 20);
    let other = refused(&rt, 2, &left, &[two, one]);
    assert!(rt; other.is_some(), "another piece is lost then");
    let left = without(&rt, &found, 5, 2 * 29 + 5);
    let same = refused(&rt, 2, &left, &[two]);
    assert!(rt; same.is_some(), "the same piece is lost then");
}

#[test]
fn one_frame_goes_to_several(rt: HostRuntime) {
    let packets: [(u16, &[u8]); 5] = [
        (1, b"of another length"),
        (2, b"for node 2: one"),
        (3, b"for node 3: one"),
        (2, b"for node 2: two"),
        (3, b"for node 3: two"),
    ];
    let found = sent(&rt, &packets);
    assert_eq!(rt; found.len(), 3, "how many frames there are");
    assert!(rt; found[1].as_slice() == found[2].as_slice(), "two");
    let length = 28 + (2 + 8) + (3 + 15) + (3 + 3) + 16;
    assert_eq!(rt; found[1].len(), length, "the length of both");
    let second = refused(&rt, 2, &found, &[packets[1].1, packets[3].1]);
    assert!(rt; second.is_some(), "those for node 2");
    let third = refused(&rt, 3, &found, &[packets[2].1, packets[4].1]);
    assert!(rt; third == Some(2), "those for node 3");
    let fourth = refused(&rt, 4, &found, &[]);
    assert!(rt; fourth == Some(3), "a stranger is given nothing");
}
