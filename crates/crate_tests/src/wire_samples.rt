use crate::fixtures::address;
use address::ViewId;
use std::alloc::{AllocError, Global};
use wire::{decode, encode};
use wire_values::Packet;

// One packet of each kind in the group `world`, between 1.1 and 2.1, spelled by hand from the tables of
// docs/WIRE.md. JOIN, ORDER and FLUSH are vectors of the format. STATE is the last of the two chunks of 32,769 bytes.
pub const JOIN: &[u8] = b"56530301 05 776f726c64 000200000001 000100000001";

pub const REDIRECT: &[u8] = b"56530302 05 776f726c64 000200000001 000100000001 000300000002";

pub const LEAVE: &[u8] = b"56530303 05 776f726c64 000200000001 000100000001";

pub const FORWARD: &[u8] = b"56530304 05 776f726c64 000200000001 000100000001
    0000000000000002 000100000001 0000000000000007 0002 6869";

pub const ORDER: &[u8] = b"56530305 05 776f726c64 000100000001 000200000001
    0000000000000002 000100000001 0000000000000001 000100000001 0000000000000001 0001 61";

pub const NAK: &[u8] = b"56530306 05 776f726c64 000200000001 000100000001
    0000000000000002 000100000001 0000000000000003 0000000000000005";

pub const ACK: &[u8] = b"56530307 05 776f726c64 000200000001 000100000001
    0000000000000002 000100000001 0000000000000009";

pub const STATUS: &[u8] = b"56530308 05 776f726c64 000100000001 000200000001
    0000000000000002 000100000001 0000000000000028 0000000000000009";

pub const FLUSH: &[u8] = b"56530309 05 776f726c64 000100000001 000200000001
    0000000000000002 000100000001 02 000100000001 000200000001";

pub const BEHIND: &[u8] = b"5653030a 05 776f726c64 000200000001 000100000001
    0000000000000002 000100000001 0000000000000004";

pub const REPORT: &[u8] = b"5653030b 05 776f726c64 000200000001 000100000001
    0000000000000003 000100000001 01 0000000000000002 000100000001 0000000000000004 0000000000000005
    02 0000000000000005 000100000001 0000000000000001 0001 61
    0000000000000008 000200000001 0000000000000002 0000";

pub const INSTALL: &[u8] = b"5653030c 05 776f726c64 000100000001 000200000001
    0000000000000002 000100000001 02 000100000001 000200000001 01 000200000001
    0000000000000006 01 000300000001 0000000000000004 0002 6869 01 00000003 010203";

pub const MERGE: &[u8] = b"5653030d 05 776f726c64 000200000001 000100000001
    0000000000000002 000200000001 02 000200000001 000100000001";

pub const STATE: &[u8] = b"5653030e 05 776f726c64 000100000001 000200000001
    0000000000000002 000100000001 00008001 02 07";

// The two other vectors.
pub const REPORT_OF_NONE: &[u8] = b"5653030b 05 776f726c64 000200000001 000100000001
    0000000000000002 000100000001 00";

pub const INSTALL_WITH_STATE: &[u8] = b"5653030c 05 776f726c64 000100000001 000200000001
    0000000000000002 000100000001 02 000100000001 000200000001 01 000200000001
    0000000000000000 00 01 00000001 00";

// An INSTALL of a state of 1,048,576 bytes, which goes in chunks.
pub const INSTALL_IN_CHUNKS: &[u8] = b"5653030c 05 776f726c64 000100000001 000200000001
    0000000000000002 000100000001 02 000100000001 000200000001 01 000200000001
    0000000000000000 00 02 00100000";

pub const EACH: [&[u8]; 14] = [
    JOIN, REDIRECT, LEAVE, FORWARD, ORDER, NAK, ACK, STATUS, FLUSH, BEHIND, REPORT, INSTALL, MERGE,
    STATE,
];

/// The bytes that a text has in hexadecimal; what is no digit only separates.
pub fn unhex(alloc: Global, text: &[u8]) -> Result<Vec<u8>, AllocError> {
    let mut out = Vec::new(alloc);
    let mut high = None;
    for c in text {
        let digit = match *c {
            b'0'..=b'9' => *c - b'0',
            b'a'..=b'f' => *c - b'a' + 10,
            _ => continue,
        };
        match high {
            None => high = Some(digit),
            Some(first) => {
                out.push((first << 4) | digit)?;
                high = None;
            }
        }
    }
    Ok(out)
}

/// The view id 2@1.1.
pub fn second_view() -> ViewId {
    ViewId::new(2, address(1, 1)).unwrap()
}

/// The number with which bytes are refused; 0 where they are a packet.
pub fn refusal(bytes: &[u8]) -> u8 {
    match decode(bytes) {
        Ok(_) => 0,
        Err(error) => error.number(),
    }
}

/// Whether a packet is written as these bytes.
pub fn is_spelled(alloc: Global, packet: &Packet<'_>, bytes: &[u8]) -> bool {
    let mut out = Vec::new(alloc);
    encode(packet, &mut out).is_ok() && out.as_slice() == bytes
}

/// Whether these bytes are a packet of a kind, and are written back.
pub fn is_exact(alloc: Global, bytes: &[u8], kind: u8) -> bool {
    match decode(bytes) {
        Ok(packet) => packet.body.kind() == kind && is_spelled(alloc, &packet, bytes),
        Err(_) => false,
    }
}
