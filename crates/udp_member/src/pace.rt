//! When a runner sleeps.

/// From how many datagrams between two rounds on a runner is busy.
const BUSY: u32 = 64;

/// After how many receives in a row that find none a busy runner sleeps.
const PATIENCE: u32 = 64;

/// How many datagrams came since the last round and between the two before it, and how many receives in a row found none. While many come it is not worth to sleep for the next one.
#[derive(Drop)]
pub(crate) struct Pace {
    heard: u32,
    heard_before: u32,
    misses: u32,
}

impl Pace {
    // Nothing came yet.
    pub(crate) fn new() -> Pace {
        Pace {
            heard: 0,
            heard_before: 0,
            misses: 0,
        }
    }

    // A round ends.
    pub(crate) fn begin(&mut self) {
        self.heard_before = self.heard;
        self.heard = 0;
    }

    // A datagram came.
    pub(crate) fn hear(&mut self) {
        self.heard = self.heard.saturating_add(1);
        self.misses = 0;
    }

    // A receive found none.
    pub(crate) fn miss(&mut self) {
        self.misses = self.misses.saturating_add(1);
    }

    // Whether many datagrams come, so that the next one is awaited without a sleep.
    pub(crate) fn is_busy(&self) -> bool {
        self.heard.max(self.heard_before) >= BUSY && self.misses < PATIENCE
    }
}
