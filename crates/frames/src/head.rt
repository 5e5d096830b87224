//! What stands before the content of a frame.

ghost use Rattle.std.specs.Prelude.{◌≡◌, ◌≤◌, ◌+◌, ◌++◌, vec_len, vec_capacity, IfSome};
ghost use Rattle.frames.specs.Frames.{kind_number, head_bytes, IsHeadOf};

use crate::{BOOT, HEAD};
use address::Node;
use big_endian::{put, put_u8, put_u16, put_u64};
use byteorder::{BigEndian, ByteOrder};

// The first byte of a frame; that of a plain packet is another one.
const FIRST: u8 = 0x46;

/// What a frame carries.
#[derive(Clone, Copy)]
pub(crate) enum Kind {
    /// Whole packets.
    Packets,
    /// A piece of a packet.
    Piece,
    /// Whole packets for several nodes.
    Several,
}

/// What stands before a frame's content: what that is, for which node, and by which start of a process; how many frames that sent there before.
#[derive(Clone, Copy)]
pub(crate) struct Head {
    pub(crate) kind: Kind,
    pub(crate) to: Node,
    pub(crate) boot: [u8; BOOT],
    pub(crate) counter: u64,
}

impl Kind {
    // Its byte.
    fn number(self) -> u8
        ensures { result ≡ kind_number self }
    {
        match self {
            Kind::Packets => 0,
            Kind::Piece => 1,
            Kind::Several => 2,
        }
    }
}

// The kind of a byte.
fn kind_of(number: u8) -> Option<Kind>
    ensures { IfSome result (λ k. number ≡ kind_number k) }
{
    match number {
        0 => Some(Kind::Packets),
        1 => Some(Kind::Piece),
        2 => Some(Kind::Several),
        _ => None,
    }
}

// Appends a head.
pub(crate) fn put_head(head: &Head, out: &mut Vec<u8>)
    requires { vec_len out.old + 28 ≤ vec_capacity out.old }
    ensures items { out.new.items ≡ out.old.items ++ head_bytes head.now }
    ensures room { vec_capacity out.old ≤ vec_capacity out.new }
{
    put_u8(FIRST, out);
    put_u8(head.kind.number(), out);
    put_u16(head.to.number(), out);
    put(&head.boot, out);
    put_u64(head.counter, out);
}

// The head of a frame, if it has one.
pub(crate) fn head_of(body: &[u8]) -> Option<Head>
    ensures { IfSome result (λ h. IsHeadOf body.now h) }
{
    if body.len() < HEAD || body[0] != FIRST {
        return None;
    }
    let kind = kind_of(body[1])?;
    let to = Node::new(BigEndian::read_u16(&body[2..]))?;
    let mut boot = [0; BOOT];
    boot.copy_from_slice(&body[4..4 + BOOT]);
    Some(Head {
        kind,
        to,
        boot,
        counter: BigEndian::read_u64(&body[20..]),
    })
}
