//! Where programs that know nothing of Rattle use a node: a desk that answers requests of HTTP (docs/HTTP.md).
//!
//! No call waits for a connection, and each does a bounded number of steps. Which writes are open, and how each ends, is in `tickets`.
#![tactic(auto)]

mod accepting;
mod attending;
mod changes;
mod client;
mod counts;
mod desk;
mod history;
mod json;
mod kept;
mod known;
mod lock_request;
mod map_request;
mod metrics;
mod orders;
mod page;
mod query;
mod refusal;
mod reply;
mod request;
mod services;
mod serving;
mod standing;
mod status;

pub use kept::Keeps;
pub use serving::HttpDesk;

/// The most connections at once, for all requests.
pub const CLIENTS: usize = 64;

/// How many more connections are accepted for `/status`, `/metrics` and `/` alone. One more is told 503 and closed.
pub const RESERVED: usize = 8;

/// For how many seconds a connection may say nothing before it is closed.
pub const IDLE: u64 = 30;

/// The same of a connection beyond `CLIENTS`.
pub const RESERVED_IDLE: u64 = 5;

/// For how many seconds a request waits at most.
pub const PATIENCE: u64 = 30;

/// The most writes that are under way at once, also those whose connections are closed.
pub const WRITES: usize = 128;

/// How many of its last events a node shows.
pub const EVENTS: usize = 200;

/// How many of the map's last changes a node remembers for those who ask what changed.
pub const CHANGES: usize = 1_000;

/// How many changes an answer tells at most: who asks goes on behind them.
pub const TOLD_CHANGES: usize = 64;
