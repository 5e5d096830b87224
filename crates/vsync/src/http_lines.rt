//! What is asked of a node over HTTP, beside the lines that it sends.

ghost use Rattle.std.specs.Prelude.{None};

use http_desk::HttpDesk;
use std::alloc::AllocError;
use std::time::Duration;
use tickets::Place;
use trace_props::Event;
use udp_runs::{Lines, LinesError, NodeStatus};

/// The desk of a node, whose writes go beside lines from elsewhere.
pub(crate) struct HttpLines<'a, L> {
    desk: HttpDesk,
    lines: &'a mut L,
    // When its node's first look was: the desk's time begins there.
    began: Option<Duration>,
}

impl<L> Drop for HttpLines<'_, L> {
    fn drop(self) {
        let HttpLines {
            desk: _,
            lines: _,
            began: _,
        } = self;
    }
}

impl<'a, L: Lines> HttpLines<'a, L> {
    /// A desk beside these lines.
    pub(crate) fn new(desk: HttpDesk, lines: &'a mut L) -> HttpLines<'a, L> {
        HttpLines {
            desk,
            lines,
            began: None,
        }
    }

    /// The node has ended: all who wait are told so.
    pub(crate) fn end(&mut self) {
        self.desk.end();
        self.desk.serve(Duration::ZERO, None, 0);
    }
}

impl<'a, L: Lines> Lines for HttpLines<'a, L> {
    ghost came = { λ _. None };

    fn more(&mut self, text: &mut Vec<u8>) -> Result<(), LinesError> {
        self.lines.more(text)
    }

    fn hear(&mut self, event: &Event) {
        self.desk.hear(event);
    }

    fn look(&mut self, now: Duration, status: &NodeStatus) {
        let began = self.began.unwrap_or(now);
        self.began = Some(began);
        let stable = match status.view {
            Some(view) => Some(Place {
                view,
                count: status.stable,
            }),
            None => None,
        };
        let since = now.saturating_sub(began);
        self.desk.serve(since, stable, status.strange);
    }

    fn next_write(&mut self) -> Result<Option<Vec<u8>>, AllocError> {
        self.desk.next_write()
    }

    fn wrote(&mut self, number: Option<u64>) {
        self.desk.wrote(number);
    }

    fn leaves(&self) -> bool {
        self.desk.is_leaving()
    }

    fn rest(&self, left: Duration) -> Duration {
        if self.desk.is_due() {
            Duration::ZERO
        } else {
            self.lines.rest(left)
        }
    }
}
