//! The hosts of nodes, by the options of `member`.

ghost use Rattle.std.specs.Prelude.{◌≡◌};
ghost use Rattle.vsync.specs.declared.hosts.PeersError.TheVariants as peers;

use address::Node;
use address::limits::GREATEST_NODE;
use std::alloc::{AllocError, Global};
use vsync_text::number_in;

/// What is wrong with a value of `--peer`, or why there are no peers.
#[derive(Clone, Copy)]
pub(crate) enum PeersError {
    /// It is no NODE=HOST.
    Malformed,
    /// Memory was refused.
    Memory,
}

impl From<AllocError> for PeersError {
    ghost from_gives = { λ _ e. e ≡ peers.Memory };

    fn from(_refused: AllocError) -> PeersError {
        PeersError::Memory
    }
}

// The node and the host of NODE=HOST.
fn peer_in(word: &str) -> Option<(Node, &str)> {
    let (node, host) = word.split_once('=')?;
    if host.is_empty() {
        return None;
    }
    let number = number_in(1, GREATEST_NODE, node.as_bytes())?;
    let Ok(number) = u16::try_from(number) else {
        return None;
    };
    Some((Node::new(number)?, host))
}

/// The nodes and hosts of the values of `--peer`.
pub(crate) fn peers_in<'a>(
    alloc: Global,
    words: &[&'a str],
) -> Result<Vec<(Node, &'a str)>, PeersError> {
    let mut peers = Vec::with_capacity(alloc, words.len())?;
    for word in words {
        let Some(peer) = peer_in(word) else {
            return Err(PeersError::Malformed);
        };
        if peers.push(peer).is_err() {
            return Err(PeersError::Memory);
        }
    }
    Ok(peers)
}
