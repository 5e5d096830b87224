use mio::unix::SourceFd;
use mio::{Events, Interest, Poll, Token};
use std::io;
use std::os::fd::RawFd;
use std::time::Duration;

/// How many descriptors it waits for at most: a socket's, and another one.
pub(crate) const WAITED_FOR: usize = 2;

/// Waits for descriptors at once. One that was ready wakes it again only when more comes to it.
pub(crate) struct Waiter {
    pub(crate) poll: Poll,
    // With room for `WAITED_FOR`.
    pub(crate) events: Events,
}

impl Drop for Waiter {
    fn drop(self) {
        let Waiter { poll: _, events: _ } = self;
    }
}

impl Waiter {
    // For this descriptor too.
    pub(crate) fn add(&mut self, descriptor: RawFd) -> io::Result<()> {
        self.poll
            .registry()
            .register(&mut SourceFd(&descriptor), Token(0), Interest::READABLE)
    }

    // Waits until one of them is ready, but no longer than a limit, in whole milliseconds and one more.
    pub(crate) fn wait(&mut self, limit: Duration) {
        let _ = self.poll.poll(&mut self.events, Some(limit));
    }
}
