//! A replicated map from keys to values: all copies that were given the same commands have the same entries, with the same versions
//! (docs/RECEIVERS.md, "The map's state").
//! And what a node that keeps the map tells those who write to it: it follows the events of its member with a copy of its own,
//! and answers each write at the write's own place in the order (docs/EMBEDDING.md, "What became of a write").
#![tactic(auto)]

mod changing;
mod command;
mod decoding;
mod encoding;
mod entries;
mod in_program;
mod law;
mod lines;
mod map;
mod outcome;
mod service;
mod service_law;
mod values;
mod waiting;
mod words;

pub use command::Command;
pub use entries::Held;
use keyed_state::{KEY, VIEW_ID_BYTES};
pub use law::{one_encoding, one_spelling, outcomes, replaces, sizes, stamps_spell, versions};
pub use map::ReplicatedMap;
pub use outcome::Outcome;
pub use service::MapService;
pub use service_law::{answers, follows, forgets_nobody};
pub use values::{ValueBytes, Version};
pub use waiting::{Answer, Fate};

/// The longest value, in bytes.
pub const VALUE: usize = 400;

/// The most bytes that a command is spelled in: a replacement's kind and flag in one each, its view's id, two values with their lengths in two, and a key with its
/// length in one. A member sends at most `PAYLOAD` of them.
pub const LONGEST_COMMAND: usize = 2 + VIEW_ID_BYTES + 2 * (2 + VALUE) + 1 + KEY;
