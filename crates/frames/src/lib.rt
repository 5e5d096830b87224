//! Frames: a net over another one, whose datagrams are sealed with a key, carry several small packets each, and carry a long packet in pieces.
#![tactic(auto)]

mod content;
mod framed_net;
mod head;
mod hmac;
mod law;
mod longs;
mod opener;
mod outlet;
mod partial;
mod peers;
mod row;
mod seal;
mod several;
mod window;

pub use framed_net::FramedNet;
pub use hmac::Key;
pub use law::lives_are_of_frames;

/// The fewest bytes of a group's key: as many as a tag has.
pub const LEAST_KEY: usize = 16;

/// The most bytes of a group's key.
pub const MOST_KEY: usize = 1_024;

/// The most bytes of a frame.
pub const FRAME: usize = 1_400;

/// The bytes of a tag: the first ones of an HMAC-SHA-256.
pub const TAG: usize = 16;

/// The bytes of a boot id, which is drawn at random at each start of a process.
pub const BOOT: usize = 16;

/// The bytes before the content of a frame.
pub const HEAD: usize = 28;

/// The most bytes of a frame's content.
pub const CONTENT: usize = FRAME - HEAD - TAG;

/// The most bytes that a packet has in common with the one before it in a frame, and that do not stand there again.
pub const MOST_SHARED: usize = 255;

/// The most bytes of a packet that goes with others.
pub const WHOLE: usize = CONTENT - 3;

/// The bytes in which what one node is sent differs from what another one is, if both go in one frame: those of an address.
pub const VARIED: usize = 6;

/// The bytes of a row of a frame for several nodes: a node, and what it has in that place.
pub const ROW: usize = 2 + VARIED;

/// The most rows of a frame for several nodes.
pub const MOST_ROWS: usize = 255;

/// The bytes before those of a piece.
pub const PIECE_HEAD: usize = 12;

/// The most bytes of a piece of a longer packet.
pub const PIECE: usize = CONTENT - PIECE_HEAD;

/// The most pieces of a packet: those of the longest datagram.
pub const MOST_PIECES: u16 = 30;

/// The most long packets that are kept in mind of which not all pieces came.
pub const MOST_PARTIALS: usize = 64;

/// The most long packets to a node that are kept, so that one that goes again has the number that it had: more than a state has chunks.
pub const KEPT_LONGS: usize = 40;

/// The counters of a sender that are told apart.
pub const SPAN: usize = 256;

/// The most senders that are kept in mind.
pub const PEERS: usize = 32;

/// The most frames that a receive opens.
pub const OPENED: usize = 64;
