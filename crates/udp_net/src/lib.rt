//! What carries datagrams between the nodes of a group, as a socket of UDP does; the settings, which say which nodes there are (docs/CLI.md, "Settings");
//! and the hosts at which they are reached.
#![tactic(auto)]

mod acks;
mod asker;
mod document;
mod error;
mod four;
mod gate;
mod held_back;
mod hosts;
mod lane;
mod neighbours;
mod net;
mod node_ports;
mod sieve;
mod sieved_net;
mod socket;
mod socket_net;
mod under_way;
mod waiter;
mod ways;
mod word;

pub use document::settings;
pub use error::{BindError, Fault, SettingsError};
pub use four::{FOUR, settings_of};
pub use held_back::HeldBack;
pub use hosts::Hosts;
pub use net::{Net, Received};
pub use node_ports::{MOST_NODES, MOST_SILENT, NodePort, Settings};
pub use sieved_net::SievedNet;
pub use socket_net::SocketNet;
pub use word::{Echo, Neighbour, Place, Word, WordVersion};

/// How many bytes a socket's net sends to a node in one turn, in bytes; the datagram that goes over them is sent too. The buffer of a socket has 212,992 bytes
/// by default on Linux, of which a datagram takes up to twice its length.
pub const BURST: usize = 65_536;

/// How many bytes are offered for a node in one turn at most, in bytes; with the datagram that goes over them the turn is over for it.
pub const OFFERS: usize = 2_097_152;

/// For how many of its turns a socket's net waits for a datagram from a node before more than `BURST` bytes go there.
pub const PATIENCE: u32 = 100;

/// The most receives of a turn.
pub const TURN: u32 = 64;

/// The most bytes of datagrams that a socket's net holds back for a node, in bytes: a state of `address::limits::STATE` bytes, and almost as much again.
pub const HELD_BACK: usize = 2_097_152;

/// How long a socket's net waits at most where it holds something back, in milliseconds.
pub const HELD_WAIT: u64 = 1;

/// For how many of a node's turns a chunk of a state that went there is under way, and does not go again: in 16 turns and one more all chunks of the longest state go.
pub const UNDER_WAY: u64 = 20;

/// How many chunks that went to a node are remembered: more than go in `UNDER_WAY` turns.
pub const REMEMBERED: usize = 64;

/// The most bytes of a datagram of which it is not asked whether it is a chunk of a state, in bytes: as many as a frame has (docs/WIRE.md, "Frames").
pub const SHORT: usize = 1_400;

/// The most bytes of an ACK: 17 of its head, 32 of the group's name, 22 of its body (docs/WIRE.md, "The header").
pub const ACK: usize = 71;

/// The most bytes of a word: 36 at most of its head, 14 of who says it and when, 15 of what it answers, 24 of the view (docs/WIRE.md, "Words").
pub const WORD: usize = 89;

/// For how many rounds the latest word of a node is known.
pub const FORGOTTEN: u32 = 500;

/// How much greater than its view's the counters of what a member hears may be: 2 to the 32 (docs/RUNNER.md, "What a net drops").
pub const FURTHEST: u64 = 4_294_967_296;

/// How long the first pause is of an address that asks to be let in, in rounds; the next ones are twice as long each (docs/RUNNER.md, "What a net drops").
pub const FIRST_PAUSE: u32 = 100;

/// How long such a pause is at most, in rounds.
pub const LONGEST_PAUSE: u32 = 3_200;

/// After how many rounds in a row in the view such an address starts afresh.
pub const CALM: u32 = 100;
