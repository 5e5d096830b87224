//! The limits of the channel and its refusals, each once. A later version changes them here: code, definitions and proofs go by the names.

pub use crate::refusal::Refusal;

/// The most members that a view may have, also those of a list of addresses in a packet; in members.
pub const MEMBERS: usize = 16;

/// The longest payload of a message, in bytes.
pub const PAYLOAD: usize = 512;

/// The longest state that a receiver may give, in bytes.
pub const STATE: usize = 1_048_576;

/// The longest state that an INSTALL carries itself, in bytes; a longer one goes in chunks before it.
pub const WHOLE_STATE: usize = 4_096;

/// How many bytes of a state a STATE carries, in bytes; the last one carries what is left.
pub const CHUNK: usize = 32_768;

/// The most own messages of a member that it has sent and that were not delivered to it yet, and of one sender that may wait to be ordered; in messages.
pub const OUTSTANDING: u64 = 8;

/// How far the numbers of a view's order may lie past the stable one, in messages: what a window takes and keeps, and a packet can carry.
pub const WINDOW: u64 = 64;

/// The most events of one step of a member, and so the places of the trace that are reserved before each step; in events. In a step at most the
/// messages of a window are delivered, and a few views change.
pub const STEP_EVENTS: usize = WINDOW as usize + 8;

/// The greatest number of a message in its view, of a member's own messages and of a view id's counter: 2 to the 62.
pub const GREATEST_NUMBER: u64 = 4_611_686_018_427_387_904;

/// The greatest number of a node; the least is 1.
pub const GREATEST_NODE: u64 = 65_535;

/// The greatest incarnation of a node; the least is 1.
pub const GREATEST_INCARNATION: u64 = 4_294_967_295;

/// The longest name of a group, in bytes.
pub const GROUP_NAME: usize = 32;

/// The longest datagram, in bytes.
pub const DATAGRAM: usize = 40_000;

/// The first two bytes of a packet, `VS`, as a number.
pub const MAGIC: u16 = 22_099;

/// The version of the format of packets, as its number on the wire.
pub const VERSION: u8 = 3;

/// How many kinds of packet there are, numbered from 1.
pub const KINDS: u8 = 14;

/// The longest line of a script, without its line feed, in bytes.
pub const SCRIPT_LINE: usize = 4_096;

/// The longest line of a trace, without its line feed, in bytes (docs/FORMATS.md, "Trace text").
pub const TRACE_LINE: usize = 2_200_000;
