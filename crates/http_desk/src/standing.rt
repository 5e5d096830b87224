//! How a node stands.

use crate::counts::Counts;
use crate::kept::Kept;
use address::{Address, Node};
use std::time::Duration;

/// How a node stands.
#[derive(Drop)]
pub(crate) struct Standing<'a> {
    pub(crate) own: Address,
    pub(crate) counts: &'a Counts,
    pub(crate) kept: &'a Kept,
    /// How many writes wait to be sent.
    pub(crate) waiting_writes: usize,
    pub(crate) clients: usize,
    /// How many messages of its view are stable, as far as it knows.
    pub(crate) stable: u64,
    /// For how long its member is blocked.
    pub(crate) blocked: Option<Duration>,
    /// For how long it runs.
    pub(crate) uptime: Duration,
    /// The datagrams that were dropped as strange.
    pub(crate) strange: u64,
    /// The other nodes of the settings that are not in its view.
    pub(crate) sought: Vec<Node>,
}
