//! A connection. Its requests are read ahead by one `Connection`, and answered by another one that is given the same bytes: what the second one sends are answers to
//! the requests that came, whatever the first one makes of them.

use crate::accepting::Caller;
use crate::kept::Keeps;
use crate::reply::Reply;
use crate::request::Asked;
use crate::services::{Answered, Giving, Noting};
use crate::{IDLE, RESERVED_IDLE};
use http_server::{Config, Connection};
use mio::net::TcpStream;
use std::alloc::{AllocError, Global};
use std::hash::RandomState;
use std::io;
use std::io::{ErrorKind, Read, Write};
use std::time::Duration;
use tickets::Place;

/// The most bytes of a request's body.
const BODY: usize = 65_536;

/// The most bytes that are read at once.
const READ: usize = 8_192;

/// The most bytes that are written at once, and how often at most before others have their turn.
const WRITE: usize = 65_536;

const WRITES: u32 = 2;

/// How many steps a connection has before others have theirs.
const STEPS: u32 = 16;

/// How far a connection went.
#[derive(Clone, Copy)]
pub(crate) enum Step {
    /// It asks something, and waits for its answer.
    Asks,
    /// It waits for its peer.
    Rests,
    /// It has more to do at once.
    More,
    /// It is over.
    Over,
}

/// What a connection waits for.
#[derive(Drop)]
pub(crate) enum Hold {
    /// Nothing.
    Nothing,
    /// The answer for a ticket: for a lock until the first of these times, and at most until the second.
    Ticket {
        ticket: u64,
        wait: Duration,
        end: Duration,
    },
    /// That all members of a view have delivered what stands up to a place, at most until this time; then it is given an answer.
    Stable {
        at: Place,
        reply: Reply,
        end: Duration,
    },
    /// That something changes behind a place, at most until this time.
    Change {
        after: Option<Place>,
        until: Duration,
    },
}

/// What there is for a connection: an answer, or what it waits for.
#[derive(Drop)]
pub(crate) enum Found {
    Reply(Reply),
    Hold(Hold),
}

// One of the two that are given what the peer sends. It is let go by a call, wherever a client is.
struct Side {
    connection: Connection,
}

impl Drop for Side {
    fn drop(self) {
        let Side { connection: _ } = self;
    }
}

impl Side {
    // It is given the bytes that came.
    fn take(&mut self, mut came: &[u8]) -> io::Result<()> {
        let count = came.len();
        if self.connection.read_from(&mut came)? == count {
            Ok(())
        } else {
            Err(ErrorKind::InvalidData.into())
        }
    }
}

/// A connection, and what its peer waits for.
pub(crate) struct Client {
    alloc: Global,
    keeps: Keeps,
    pub(crate) id: usize,
    stream: TcpStream,
    ahead: Side,
    server: Side,
    /// What its peer asked, until that is answered.
    pub(crate) asked: Option<Asked>,
    /// What its peer waits for.
    pub(crate) hold: Hold,
    /// Whether there may be something to do for it.
    pub(crate) is_due: bool,
    /// Whether it is over, and not kept.
    pub(crate) is_over: bool,
    /// Whether it is one of those that are for a few requests alone.
    pub(crate) is_reserved: bool,
    /// Whether it is closed once its answers are sent.
    pub(crate) is_last: bool,
    // Whether a read may find something.
    is_readable: bool,
    // Whether it was looked, since its socket was ready last, whether its peer has gone.
    is_looked_at: bool,
    /// When something was last read or written, or its peer was last given what it waited for.
    heard: Duration,
    // Whether its peer sends nothing more.
    has_hung_up: bool,
    buffer: Vec<u8>,
}

impl Drop for Client {
    fn drop(self) {
        let Client {
            alloc: _,
            keeps: _,
            id: _,
            stream: _,
            ahead: _,
            server: _,
            asked: _,
            hold: _,
            is_due: _,
            is_over: _,
            is_reserved: _,
            is_last: _,
            is_readable: _,
            is_looked_at: _,
            heard: _,
            has_hung_up: _,
            buffer: _,
        } = self;
    }
}

fn config() -> Config {
    let mut config = Config::default();
    config.max_body_len = BODY;
    config.max_pending = 0;
    config
}

// What the reader ahead puts out is never sent.
fn drop_output(ahead: &mut Connection) {
    for _ in 0..STEPS {
        let count = ahead.output().len();
        if count == 0 {
            return;
        }
        ahead.sent(count);
    }
}

// Writes the front of some bytes, of bounded length; answers how much went.
fn write_front(output: &[u8], stream: &mut TcpStream) -> io::Result<usize> {
    match output.get(..WRITE) {
        Some(front) => stream.write(front),
        None => stream.write(output),
    }
}

// Writes a piece of what waits; answers how much went.
fn write_piece(connection: &mut Connection, stream: &mut TcpStream) -> io::Result<usize> {
    let most = connection.output().len();
    let count = write_front(connection.output(), stream)?;
    connection.sent(count.min(most));
    Ok(count)
}

impl Client {
    pub(crate) fn new(
        alloc: Global,
        keys: RandomState,
        keeps: Keeps,
        caller: Caller,
        now: Duration,
        is_reserved: bool,
    ) -> Result<Client, AllocError> {
        let buffer = vec![in alloc; 0; READ]?;
        let Caller { id, stream } = caller;
        Ok(Client {
            alloc,
            keeps,
            id,
            stream,
            ahead: Side {
                connection: Connection::new(alloc, keys, config()),
            },
            server: Side {
                connection: Connection::new(alloc, keys, config()),
            },
            asked: None,
            hold: Hold::Nothing,
            is_due: true,
            is_over: false,
            is_reserved,
            is_last: false,
            is_readable: true,
            is_looked_at: false,
            heard: now,
            has_hung_up: false,
            buffer,
        })
    }

    /// Its socket is ready for something; or its peer sends nothing more.
    pub(crate) fn wake(&mut self, has_hung_up: bool) {
        self.has_hung_up |= has_hung_up;
        self.is_due = true;
        self.is_readable = true;
        self.is_looked_at = false;
    }

    // Writes what waits, as much as may go in one turn; answers what is next, unless all of it went.
    fn flush(&mut self, now: Duration) -> io::Result<Option<Step>> {
        for _ in 0..WRITES {
            if !self.server.connection.wants_write() {
                return Ok(None);
            }
            match write_piece(&mut self.server.connection, &mut self.stream) {
                Ok(0) => return Err(ErrorKind::WriteZero.into()),
                Ok(_) => self.heard = now,
                Err(error) if error.kind() == ErrorKind::WouldBlock => return Ok(Some(Step::Rests)),
                Err(error) => return Err(error),
            }
        }
        if self.server.connection.wants_write() {
            return Ok(Some(Step::More));
        }
        Ok(None)
    }

    // Gives both the bytes that came.
    fn take(&mut self, count: usize) -> io::Result<()> {
        let Some(came) = self.buffer.as_slice().get(..count) else {
            return Err(ErrorKind::InvalidData.into());
        };
        self.ahead.take(came)?;
        self.server.take(came)
    }

    // Reads once; answers whether anything came.
    fn read(&mut self, now: Duration) -> io::Result<bool> {
        let both_want = self.ahead.connection.wants_read() & self.server.connection.wants_read();
        if !(self.is_readable & both_want) {
            return Ok(false);
        }
        match self.stream.read(self.buffer.as_mut_slice()) {
            Ok(count) => {
                self.heard = now;
                self.take(count)?;
                Ok(true)
            }
            Err(error) if error.kind() == ErrorKind::WouldBlock => {
                self.is_readable = false;
                Ok(false)
            }
            Err(error) => Err(error),
        }
    }

    // Reads the next request ahead, and answers whether it is whole.
    fn reads_ahead(&mut self) -> bool {
        drop_output(&mut self.ahead.connection);
        let mut noting = Noting {
            alloc: self.alloc,
            keeps: self.keeps,
            asked: None,
        };
        self.ahead.connection.advance(&mut noting);
        self.asked = noting.asked;
        self.asked.is_some()
    }

    // One step; `None` if it goes on.
    fn step(&mut self, now: Duration) -> io::Result<Option<Step>> {
        if let Some(step) = self.flush(now)? {
            return Ok(Some(step));
        }
        if self.is_last | self.server.connection.is_done() {
            return Ok(Some(Step::Over));
        }
        if self.reads_ahead() {
            return Ok(Some(Step::Asks));
        }
        self.advance(None);
        let server = &self.server.connection;
        let goes_on = (server.wants_write() | server.is_done()) || self.read(now)?;
        Ok(if goes_on { None } else { Some(Step::Rests) })
    }

    // The connection itself refuses what is no request.
    fn advance(&mut self, found: Option<Answered>) {
        let mut giving = Giving {
            alloc: self.alloc,
            keeps: self.keeps,
            found,
        };
        self.server.connection.advance(&mut giving);
    }

    /// Goes on until it asks something, or rests, or is over.
    pub(crate) fn go_on(&mut self, now: Duration) -> Step {
        for _ in 0..STEPS {
            match self.step(now) {
                Ok(Some(step)) => return step,
                Ok(None) => (),
                Err(_) => return Step::Over,
            }
        }
        Step::More
    }

    /// Whether it waits for something.
    pub(crate) fn is_held(&self) -> bool {
        match self.hold {
            Hold::Nothing => false,
            _ => true,
        }
    }

    /// Whether its peer has gone while it waits: there is nothing more to read, and there will not be.
    pub(crate) fn has_gone(&mut self) -> bool {
        if !self.is_held() {
            return false;
        }
        if self.has_hung_up {
            return true;
        }
        if !self.is_readable | self.is_looked_at {
            return false;
        }
        match self.stream.peek(self.buffer.as_mut_slice()) {
            Ok(0) => true,
            Ok(_) => {
                self.is_looked_at = true;
                false
            }
            Err(error) if error.kind() == ErrorKind::WouldBlock => {
                self.is_readable = false;
                false
            }
            Err(_) => true,
        }
    }

    /// The ticket for whose answer it waits.
    pub(crate) fn ticket(&self) -> Option<u64> {
        match &self.hold {
            Hold::Ticket { ticket, .. } => Some(*ticket),
            _ => None,
        }
    }

    /// Whether it said nothing for long, and waits for nothing.
    pub(crate) fn is_idle(&self, now: Duration) -> bool {
        let silence = now.saturating_sub(self.heard);
        let most = if self.is_reserved {
            RESERVED_IDLE
        } else {
            IDLE
        };
        !self.is_held() & (silence > Duration::from_secs(most))
    }

    /// It waits for nothing, and is given what there is for it: the answer to what it asked, which `go_on` sends, or what it waits for.
    pub(crate) fn give(&mut self, found: Found, now: Duration) {
        match found {
            Found::Hold(hold) => self.hold = hold,
            Found::Reply(reply) => {
                if let Some(asked) = self.asked.take() {
                    self.heard = now;
                    self.advance(Some(Answered { asked, reply }));
                }
            }
        }
    }
}
