//! A table of locks: all copies that were given the same commands agree on who holds each lock, who waits for it, and with which token it was granted
//! (docs/RECEIVERS.md, "The table of locks").
//! And what a node that keeps the table tells those who ask it for locks: it follows the events of its member with a table of its own,
//! and answers each request at the place at which it is granted, released or lost (docs/EMBEDDING.md, "What became of a request for a lock").
#![tactic(auto)]

mod answer;
mod command;
mod decoding;
mod encoding;
mod held;
mod in_program;
mod law;
mod lines;
mod lock;
mod own_message;
mod service;
mod service_law;
mod standing;
mod table;
mod words;

use address::limits::MEMBERS;
pub use answer::{Answer, Fate, Queued};
pub use command::Command;
pub use keyed_state::Token;
pub use law::{
    in_turn, moves, one_encoding, one_holder, one_spelling, release_by_another, roll_again,
    stamps_spell, tokens_rise,
};
pub use lock::Lock;
pub use service::LockService;
pub use service_law::{follows, forgets_nobody, grants, misses_no_grant};
pub use standing::{Standing, standing_of};
pub use table::LockTable;

/// The most bytes that a command is spelled in: a roll's kind and number of members in one each, its view's id in 14, and each member in six.
pub const LONGEST_COMMAND: usize = 1 + 14 + 1 + 6 * MEMBERS;
