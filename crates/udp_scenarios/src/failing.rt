//! Four members over nets in memory come into one view, part into two pairs and merge. Each receive fails in turn, and each send: as four runners, whose rounds
//! are counted, and as a script of nodes, whose trace is judged.

use crate::lines::Told;
use crate::{failing_nodes, failing_runners};
use std::alloc::{AllocError, Global};

/// How many were tried, and how many were as they must be.
#[derive(Clone, Copy)]
pub struct Tried {
    tried: u64,
    passed: u64,
}

impl Tried {
    /// Nothing yet.
    pub fn new() -> Tried {
        Tried {
            tried: 0,
            passed: 0,
        }
    }

    /// Counts a run.
    pub fn count(&mut self, is_right: bool) {
        self.tried = self.tried.wrapping_add(1);
        if is_right {
            self.passed = self.passed.wrapping_add(1);
        }
    }
}

/// Adds what came of a list.
fn put(told: &mut Told, failing: &str, came: Result<Tried, AllocError>) {
    match came {
        Ok(came) => {
            told.number(failing, came.tried);
            told.number("  as it must be", came.passed);
        }
        Err(_) => told.refuse(),
    }
}

/// Each receive and each send fails in turn: the rounds of four runners.
pub fn runners(alloc: Global, told: &mut Told) {
    put(told, "each receive", failing_runners::receives(alloc));
    put(told, "each send", failing_runners::sends(alloc));
}

/// Each receive and each send fails in turn: the trace of a script of four nodes.
pub fn nodes(alloc: Global, told: &mut Told) {
    put(told, "each receive", failing_nodes::receives(alloc));
    put(told, "each send", failing_nodes::sends(alloc));
}
