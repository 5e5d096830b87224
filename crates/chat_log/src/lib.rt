//! A replicated chat: its state is the last lines that were said, and all copies that were given the same have the
//! same lines (docs/RECEIVERS.md, "The chat's state").
#![tactic(auto)]

mod chat;
mod chat_lines;
mod decoding;
mod in_program;
mod law;
mod lines;
mod log;
mod size;
mod writing;

pub use chat::Chat;
pub use law::one_encoding;
pub use lines::Line;
pub use log::{ChatLog, LastLines, LongChat};
pub use size::{ChatSize, Long, Short};

/// The most lines that a chat keeps (docs/RECEIVERS.md, "The chat's state").
pub const LINES: usize = 24;

/// The most lines that a long chat keeps (docs/RECEIVERS.md, "The chat's state").
pub const LONG_LINES: usize = 2_000;
