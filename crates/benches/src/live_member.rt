//! A member with the loop that `vsync member` has: it sleeps while no datagram comes, and has a round by the clock.

use crate::carrier::Carrier;
use crate::group_member::Member;
use crate::party::Party;
use address::Node;
use std::alloc::Global;
use std::io;
use std::time::{Clock, Duration};
use udp_net::{Settings, SocketNet};

/// The time between two rounds, in milliseconds.
const TICK: u64 = 20;

/// A member that waits for datagrams.
pub(crate) struct Live<C: Carrier> {
    member: Member<C>,
    // When its next round is due.
    due: Duration,
    // Whether it heard or sent something since it last went to sleep.
    is_busy: bool,
}

impl<C: Carrier> Drop for Live<C> {
    fn drop(self) {
        let Live {
            member: _,
            due: _,
            is_busy: _,
        } = self;
    }
}

impl<C: Carrier> Party for Live<C> {
    fn new(alloc: Global, settings: &Settings, node: Node, net: SocketNet) -> io::Result<Live<C>> {
        Ok(Live {
            member: Member::new(alloc, settings, node, net)?,
            due: Duration::ZERO,
            is_busy: false,
        })
    }

    fn is_ready(&mut self) -> bool {
        self.member.is_ready()
    }

    fn send(&mut self, payload: &[u8]) -> io::Result<bool> {
        let is_sent = self.member.send(payload)?;
        self.is_busy = self.is_busy || is_sent;
        Ok(is_sent)
    }

    fn hear(&mut self, rt: &HostRuntime, delivered: &mut Vec<bool>) -> io::Result<()> {
        let now = rt.monotonic()?;
        if now >= self.due {
            self.due = now.saturating_add(Duration::from_millis(TICK));
            self.member.tick()?;
            self.is_busy = true;
        } else if self.member.listen()? {
            self.is_busy = true;
        }
        self.member.deliver(delivered)
    }

    fn go(&mut self, rt: &HostRuntime, rest: Duration) -> io::Result<()> {
        self.member.offer();
        if !self.is_busy {
            let left = self.due.saturating_sub(rt.monotonic()?);
            self.member.wait(if rest < left { rest } else { left });
        }
        self.is_busy = false;
        Ok(())
    }
}
