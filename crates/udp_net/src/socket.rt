ghost use Rattle.std.specs.Prelude.{◌≡◌, ◌≤◌, length, IfOk, IfSome};
ghost use Rattle.udp_net.specs.Logs.{one_more};

use crate::waiter::Waiter;
use mio::{Events, Poll};
use std::io;
use std::io::ErrorKind;
use std::net::{SocketAddr, UdpSocket};
use std::os::fd::AsRawFd;
use std::time::Duration;

/// A socket of UDP that waits only where it is asked to, and how many datagrams could not be sent on it. No call of `send` or `receive` waits.
pub(crate) struct Socket {
    socket: UdpSocket,
    // What its waits end for: it, and another descriptor.
    pub(crate) waiter: Waiter,
    // Whether the last receive found a datagram: then more may wait.
    may_have_more: bool,
    // At most 2^64 - 1.
    unsent: u64,
}

impl Drop for Socket {
    fn drop(self) {
        let Socket {
            socket: _,
            waiter: _,
            may_have_more: _,
            unsent: _,
        } = self;
    }
}

impl Socket {
    // A socket at an address; the events have room for `WAITED_FOR`.
    pub(crate) fn bind<R: std::net::Net>(
        network: &R,
        at: SocketAddr,
        events: Events,
    ) -> io::Result<Socket> {
        let socket = UdpSocket::bind(network, at)?;
        socket.set_nonblocking(true)?;
        let mut waiter = Waiter {
            poll: Poll::new(network)?,
            events,
        };
        waiter.add(socket.as_raw_fd())?;
        Ok(Socket {
            socket,
            waiter,
            may_have_more: true,
            unsent: 0,
        })
    }

    // How many datagrams could not be sent, at most 2^64 - 1.
    pub(crate) fn unsent(&self) -> u64
        ensures { result ≡ self.now.unsent }
    {
        self.unsent
    }

    // Counts a datagram that cannot be sent.
    pub(crate) fn lose(&mut self)
        ensures counts { self.new.unsent ≡ one_more self.old.unsent }
        ensures unsent { self.old.unsent ≤ self.new.unsent }
    {
        self.unsent = self.unsent.saturating_add(1);
    }

    // Sends a datagram. Where it cannot be sent, it is lost.
    pub(crate) fn send(&mut self, to: SocketAddr, datagram: &[u8])
        ensures unsent { self.old.unsent ≤ self.new.unsent }
    {
        if self.socket.send_to(datagram, to).is_err() {
            self.lose();
        }
    }

    // Takes the next datagram that came, into the front of the buffer, and answers its length and where it came from; `None` where none waits.
    pub(crate) fn receive(&mut self, buffer: &mut [u8]) -> io::Result<Option<(usize, SocketAddr)>>
        ensures within { IfOk result (λ came. IfSome came (λ d. d.0 ≤ length buffer.new)) }
        ensures unsent { self.new.unsent ≡ self.old.unsent }
    {
        self.may_have_more = true;
        match self.socket.recv_from(buffer) {
            Ok(came) => Ok(Some(came)),
            Err(error) if error.kind() == ErrorKind::WouldBlock => {
                self.may_have_more = false;
                Ok(None)
            }
            Err(error) => Err(error),
        }
    }

    // Waits until a datagram waits here, but no longer than a limit; less where that fails.
    pub(crate) fn wait(&mut self, limit: Duration)
        ensures unsent { self.new.unsent ≡ self.old.unsent }
    {
        if self.may_have_more && self.socket.peek_from(&mut [0]).is_ok() {
            return;
        }
        self.waiter.wait(limit);
    }
}
