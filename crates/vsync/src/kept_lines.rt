//! Lines of a node that are kept for its next incarnation.

ghost use Rattle.std.specs.Prelude.{None};

use std::alloc::{AllocError, Global};
use std::time::Duration;
use trace_props::Event;
use udp_runs::{Lines, LinesError, NodeStatus};

/// Lines that come from elsewhere, behind those that a member of the node gave back: these come once, and before others.
#[derive(Drop)]
pub(crate) struct KeptLines<'a, L> {
    lines: &'a mut L,
    kept: Vec<u8>,
}

impl<'a, L: Lines> KeptLines<'a, L> {
    /// These lines; none was given back yet.
    pub(crate) fn new(alloc: Global, lines: &'a mut L) -> KeptLines<'a, L> {
        KeptLines {
            lines,
            kept: Vec::new(alloc),
        }
    }
}

impl<'a, L: Lines> Lines for KeptLines<'a, L> {
    ghost came = { λ _. None };

    fn more(&mut self, text: &mut Vec<u8>) -> Result<(), LinesError> {
        if self.kept.is_empty() {
            return self.lines.more(text);
        }
        text.extend_from_slice(self.kept.as_slice())?;
        self.kept.clear();
        Ok(())
    }

    // Where memory is refused, they are lost.
    fn back(&mut self, text: &[u8]) {
        let _ = self.kept.extend_from_slice(text);
    }

    fn hear(&mut self, event: &Event) {
        self.lines.hear(event);
    }

    fn look(&mut self, now: Duration, status: &NodeStatus) {
        self.lines.look(now, status);
    }

    fn next_write(&mut self) -> Result<Option<Vec<u8>>, AllocError> {
        self.lines.next_write()
    }

    fn wrote(&mut self, number: Option<u64>) {
        self.lines.wrote(number);
    }

    fn leaves(&self) -> bool {
        self.lines.leaves()
    }

    fn rest(&self, left: Duration) -> Duration {
        self.lines.rest(left)
    }
}
