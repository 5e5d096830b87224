//! A member.

use crate::carrier::Carrier;
use crate::party::Party;
use address::{Address, Node};
use channel::Channel;
use chat_log::ChatLog;
use state_transfer::Receiver;
use std::alloc::Global;
use std::io;
use std::io::ErrorKind;
use std::time::Duration;
use trace_props::Event;
use udp_member::Runner;
use udp_net::{Settings, SocketNet};

/// How often it listens before it has a round, by which what was lost comes again.
const LISTENS: u64 = 64;

/// A member over a socket, with a chat as its receiver.
pub(crate) struct Member<C: Carrier> {
    alloc: Global,
    member: Runner<C, ChatLog>,
    listens: u64,
}

impl<C: Carrier> Drop for Member<C> {
    fn drop(self) {
        let Member {
            alloc: _,
            member: _,
            listens: _,
        } = self;
    }
}

// Connects the channel of a node: that of node 1 makes the group, and the others join it.
pub(crate) fn connect<R: Receiver>(
    channel: &mut Channel<R>,
    settings: &Settings,
    node: Node,
) -> io::Result<()> {
    let group = settings.group();
    let first = Node::new(1).ok_or(io::Error::from(ErrorKind::InvalidInput))?;
    let connected = if node == first {
        channel.connect_new(group.as_slice())
    } else {
        channel.connect_to(group.as_slice(), Address::first_at(first))
    };
    connected.map_err(|_| io::Error::from(ErrorKind::InvalidInput))
}

impl<C: Carrier> Party for Member<C> {
    // The member of a node.
    fn new(
        alloc: Global,
        settings: &Settings,
        node: Node,
        net: SocketNet,
    ) -> io::Result<Member<C>> {
        let net = C::over(alloc, net, settings, node)?;
        let channel = Channel::new(alloc, Address::first_at(node), ChatLog::opening(alloc)?);
        let mut member = Member {
            alloc,
            member: Runner::new(alloc, net, channel, &[], u32::from(settings.silent()))?,
            listens: 0,
        };
        match connect(member.member.channel(), settings, node) {
            Ok(()) => Ok(member),
            Err(refused) => Err(refused),
        }
    }

    fn is_ready(&mut self) -> bool {
        match self.member.channel().view() {
            Some(view) => view.members().len() == 4,
            None => false,
        }
    }

    fn send(&mut self, payload: &[u8]) -> io::Result<bool> {
        let payload = Vec::from_slice(self.alloc, payload)?;
        Ok(self.member.channel().send(payload).is_ok())
    }

    fn hear(&mut self, _rt: &HostRuntime, delivered: &mut Vec<bool>) -> io::Result<()> {
        self.listens = self.listens.wrapping_add(1);
        if self.listens % LISTENS == 0 {
            self.tick()?;
        } else {
            self.listen()?;
        }
        self.deliver(delivered)
    }

    fn go(&mut self, _rt: &HostRuntime, _rest: Duration) -> io::Result<()> {
        self.offer();
        Ok(())
    }
}

impl<C: Carrier> Member<C> {
    /// A round of its runner.
    pub(crate) fn tick(&mut self) -> io::Result<()> {
        match self.member.round() {
            Ok(()) => Ok(()),
            Err(_) => Err(io::Error::from(ErrorKind::Other)),
        }
    }

    /// Takes the datagrams that came; answers whether there were any.
    pub(crate) fn listen(&mut self) -> io::Result<bool> {
        match self.member.listen() {
            Ok(count) => Ok(count > 0),
            Err(_) => Err(io::Error::from(ErrorKind::Other)),
        }
    }

    /// What it put out goes.
    pub(crate) fn offer(&mut self) {
        self.member.offer();
    }

    /// Sleeps until a datagram comes, but no longer than so.
    pub(crate) fn wait(&mut self, limit: Duration) {
        self.member.wait(limit);
    }

    /// Takes what happened; for each message that was delivered is appended whether it is its own.
    pub(crate) fn deliver(&mut self, delivered: &mut Vec<bool>) -> io::Result<()> {
        for _ in 0..u64::MAX {
            let Some(event) = self.member.channel().happened() else {
                break;
            };
            if let Event::Delivered(delivery) = &event {
                delivered.push(delivery.message.sender == delivery.member)?;
            }
        }
        Ok(())
    }
}
