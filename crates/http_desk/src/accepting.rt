//! The sockets of a desk: where it listens, and what is ready.

use mio::net::{TcpListener, TcpStream};
use mio::{Events, Interest, Poll, Token};
use std::alloc::Global;
use std::io;
use std::io::Write;
use std::net::{Net, SocketAddr};
use std::os::fd::{AsRawFd, RawFd};
use std::time::Duration;

/// The token of the socket that listens.
const LISTENER: usize = 0;

/// The first token of a connection.
const FIRST: usize = 1;

/// How many events are taken at once.
const EVENTS: usize = 128;

/// What one too many is told.
const TOO_MANY: &[u8] =
    b"HTTP/1.1 503 Service Unavailable\r\nconnection: close\r\nretry-after: 1\r\ncontent-length: 0\r\n\r\n";

/// A connection that was accepted, and its id.
#[derive(Drop)]
pub(crate) struct Caller {
    pub(crate) id: usize,
    pub(crate) stream: TcpStream,
}

impl Caller {
    /// It is told that it is one too many.
    pub(crate) fn turn_away(self) {
        let Caller { id: _, mut stream } = self;
        let _ = stream.write(TOO_MANY);
    }
}

/// The socket that listens, and the wait for it and for all connections.
pub(crate) struct Door {
    poll: Poll,
    events: Events,
    listener: TcpListener,
    next: usize,
    /// Whether somebody may stand before it.
    pub(crate) has_callers: bool,
}

impl Drop for Door {
    fn drop(self) {
        let Door {
            poll: _,
            events: _,
            listener: _,
            next: _,
            has_callers: _,
        } = self;
    }
}

impl Door {
    pub(crate) fn bind<R: Net>(alloc: Global, rt: &R, at: SocketAddr) -> io::Result<Door> {
        let poll = Poll::new(rt)?;
        let listener = TcpListener::bind(rt, at)?;
        Door::of(alloc, poll, listener)
    }

    fn of(alloc: Global, poll: Poll, mut listener: TcpListener) -> io::Result<Door> {
        poll.registry()
            .register(&mut listener, Token(LISTENER), Interest::READABLE)?;
        Ok(Door {
            poll,
            events: Events::with_capacity(alloc, EVENTS)?,
            listener,
            next: FIRST,
            has_callers: true,
        })
    }

    /// What is readable when somebody is ready.
    pub(crate) fn descriptor(&self) -> RawFd {
        self.poll.as_raw_fd()
    }

    /// Looks what is ready. It does not wait.
    pub(crate) fn look(&mut self) -> io::Result<()> {
        self.poll.poll(&mut self.events, Some(Duration::ZERO))?;
        self.has_callers |= self.is_ready(LISTENER);
        Ok(())
    }

    /// Whether the last look found that the socket of an id is ready.
    pub(crate) fn is_ready(&self, id: usize) -> bool {
        for event in self.events.iter() {
            if event.token().0 == id {
                return true;
            }
        }
        false
    }

    /// Whether the last look found that the peer of an id sends nothing more.
    pub(crate) fn has_hung_up(&self, id: usize) -> bool {
        for event in self.events.iter() {
            if (event.token().0 == id) & event.is_read_closed() {
                return true;
            }
        }
        false
    }

    /// The next connection.
    pub(crate) fn accept(&mut self) -> Option<Caller> {
        let Ok((mut stream, _from)) = self.listener.accept() else {
            self.has_callers = false;
            return None;
        };
        let id = self.next;
        self.next = if id == usize::MAX { FIRST } else { id + 1 };
        let _ = stream.set_nodelay(true);
        let both = Interest::READABLE | Interest::WRITABLE;
        let registered = self.poll.registry().register(&mut stream, Token(id), both);
        match registered {
            Ok(()) => Some(Caller { id, stream }),
            Err(_) => None,
        }
    }
}
