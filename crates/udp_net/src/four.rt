//! Settings of four nodes.

use crate::{Settings, settings};
use std::alloc::{AllocError, Global};

/// The settings of nodes 1 to 4, with 50 rounds of silence.
pub const FOUR: &str =
    "group = \"chat\"\nsilent = 50\n[[node]]\nnumber = 1\nport = 27401\n[[node]]\nnumber = 2\nport = 27402\n[[node]]\nnumber = 3\nport = 27403\n[[node]]\nnumber = 4\nport = 27404\n";

/// Settings of a text that is one of settings.
pub fn settings_of(alloc: Global, text: &str) -> Result<Settings, AllocError> {
    match settings(alloc, text) {
        Ok(found) => Ok(found),
        Err(_) => Err(AllocError),
    }
}
