ghost use Rattle.std.specs.Prelude.{◌≡◌, ◌≢◌, ◌≤◌, true, false, length, IfOk, IfSome};
ghost use Rattle.udp_net.specs.Logs.{one_more, failures_after};
ghost use Rattle.udp_net.specs.Bursts.{passage};
ghost use Rattle.udp_net.specs.Sieve.{lets_through, IsOrdinary};
ghost use Rattle.udp_net.specs.Strangers.{AnyLane, ComesFrom, ComesPlainlyFrom, IsFrom, IsPlainlyFrom, source_of};
ghost use Rattle.udp_net.specs.Words.{begins_as_word};
ghost use Rattle.udp_net.specs.declared.gate.Verdict.TheVariants.{Given};
ghost use Rattle.wire_values.specs.declared.packet.Packet.{Packet as PacketValue};
ghost use Rattle.wire.specs.Packets.{Spells, packet_of};
ghost use Rattle.udp_net.specs.declared.lane.Passage.TheVariants.{Lost};

use crate::gate::Verdict;
use crate::lane::{Lane, Passage};
use crate::socket::Socket;
use crate::waiter::WAITED_FOR;
use crate::ways::{Ways, is_reached_at};
use crate::{BindError, Fault, HELD_WAIT, Hosts, Neighbour, Net, Settings, TURN, Word};
use address::{Address, Node, ViewId};
use mio::Events;
use std::alloc::Global;
use std::net::SocketAddr;
use std::os::fd::RawFd;
use std::time::Duration;

/// The net of one node: a socket of UDP at this node's host and at its port by the settings, which waits only in `wait`. Packets are neither signed nor encrypted, so the
/// network must be one's own.
///
/// It drops packets and words of a node that the settings do not list, or that come from elsewhere than the node's host and port, and packets that would harm the group
/// (docs/RUNNER.md, "What a net drops"). What spells no packet is given, and refused by the member.
///
/// A long burst goes in pieces, since the buffer of the socket that it is for would not take it: in one turn `BURST` bytes go to a node, and the datagram that
/// goes over them. What is more is held back, for each node by itself, and goes in order, in the next turns, before what is offered then. What is under way does not go again, so that
/// what is asked for again and again takes its turn as a whole: a datagram that waits already is not held back twice, and a chunk of a state that went within the node's last `UNDER_WAY`
/// turns is passed over. It is lost where more than `HELD_BACK` bytes would wait for its node, or memory is refused; so is what waits when the net is dropped.
///
/// There is no clock. A turn of the net ends with a receive that finds no datagram, or fails, and with the `TURN`th receive. A node's next turn begins there, if a datagram came
/// from it since its last one, or after `PATIENCE` turns of the net: so no more is sent to one that has rounds, as a runner, than it takes in each of them, however
/// long they are. For one node a turn of the net is over too where `OFFERS` bytes were offered for it, as by answers to one that asks often.
///
/// Where something is held back, a wait has `HELD_WAIT` milliseconds at most, so that it goes on soon.
pub struct SocketNet {
    socket: Socket,
    ways: Ways,
    // The receives of this turn.
    receives: u32,
    failures: u64,
    // Whether a node's datagrams are taken wherever they come from.
    is_open: bool,
    // Whether each datagram of a node is given as it came.
    is_bare: bool,
}

impl Drop for SocketNet {
    fn drop(self) {
        let SocketNet {
            socket: _,
            ways: _,
            receives: _,
            failures: _,
            is_open: _,
            is_bare: _,
        } = self;
    }
}

// A turn of the net is over: what was held back on a way goes on, where the next one begins there.
fn go_on(socket: &mut Socket, lane: &mut Lane)
    ensures { socket.old.unsent ≤ socket.new.unsent }
{
    lane.begin();
    for _ in 0..lane.held() {
        let Some(datagram) = lane.next() else {
            return;
        };
        socket.send(lane.address(), datagram.as_slice());
    }
}

// Sends a datagram on a way, or holds it back.
fn send_on(socket: &mut Socket, lane: &mut Lane, datagram: &[u8])
    ensures unsent { socket.old.unsent ≤ socket.new.unsent }
    ensures lost { passage datagram.now lane.old ≡ Lost → one_more socket.old.unsent ≤ socket.new.unsent }
{
    match lane.offer(datagram) {
        Ok(Passage::Goes) => socket.send(lane.address(), datagram),
        Ok(Passage::Waits | Passage::UnderWay) => {}
        Ok(Passage::Lost) | Err(_) => socket.lose(),
    }
    if lane.is_over() {
        go_on(socket, lane);
    }
}

impl SocketNet {
    /// The net of a node. Refused with 50 where the settings do not list the node, with 51 where its socket cannot be bound, as where its port is taken, and
    /// with 7 where memory was refused.
    pub fn bind<R: std::net::Net>(
        alloc: Global,
        network: &R,
        settings: &Settings,
        hosts: &Hosts,
        node: Node,
    ) -> Result<SocketNet, BindError>
        ensures listed { IfOk result (λ net. net.is_open ≡ false) }
        ensures sieved { IfOk result (λ net. net.is_bare ≡ false) }
    {
        let port = settings.port(node).ok_or(BindError::Config)?;
        let ways = Ways::new(alloc, settings, hosts)?;
        let events = Events::with_capacity(alloc, WAITED_FOR)?;
        match Socket::bind(network, SocketAddr::new(hosts.own(), port), events) {
            Ok(socket) => Ok(SocketNet {
                socket,
                ways,
                receives: 0,
                failures: 0,
                is_open: false,
                is_bare: false,
            }),
            Err(_) => Err(BindError::Bind),
        }
    }

    /// From now on its waits end too when another descriptor is readable. After an error, what the system says, they are as before.
    pub fn also_wait_for(&mut self, other: RawFd) -> std::io::Result<()>
        ensures open { self.new.is_open ≡ self.old.is_open }
        ensures bare { self.new.is_bare ≡ self.old.is_bare }
    {
        self.socket.waiter.add(other)
    }

    /// From now on the datagrams of a node that the settings list are taken wherever they come from, as where addresses are translated on the way
    /// (docs/RUNNER.md, "What a net drops").
    pub fn hear_from_anywhere(&mut self)
        ensures { self.new ≡ record self.old { is_open = true } }
    {
        self.is_open = true;
    }

    /// From now on it gives each datagram as it came that comes from where some node is reached, whatever it is, and holds nothing back: a net above it does that, as one over frames.
    pub fn give_all(&mut self)
        ensures { self.new ≡ record self.old { is_bare = true } }
    {
        self.is_bare = true;
    }

    // What becomes of a datagram: what spells no packet is given, unless it is a word.
    fn judge(&mut self, datagram: &[u8], from: SocketAddr) -> Verdict
        // No word is given; and a packet only if it comes from the node that it names, and the sieve lets it through.
        ensures word { self.old.is_bare ≡ false → begins_as_word datagram.now ≡ true → result ≢ Given }
        ensures given { self.old.is_bare ≡ false → result ≡ Given → IfOk (packet_of datagram.now) (λ p. AnyLane (IsFrom p.source.node (source_of self.old.is_open from)) self.old.ways.lanes.items × (lets_through self.old.ways.gate.sieve p ≡ true)) }
        // The messages of a view, and what flushes it for its members, are always given, if they come from the node that they name.
        ensures ordinary { self.old.is_bare ≡ false → (p : PacketValue) → Spells p datagram.now → IsOrdinary self.old.ways.gate.sieve p → AnyLane (IsPlainlyFrom p.source.node (source_of self.old.is_open from)) self.old.ways.lanes.items → result ≡ Given }
        // A bare net gives what comes from where some node is reached, or may come from anywhere.
        ensures bare { self.old.is_bare ≡ true → result ≡ Given → self.old.is_open ≡ false → AnyLane (ComesFrom from) self.old.ways.lanes.items }
        ensures reached { self.old.is_bare ≡ true → AnyLane (ComesPlainlyFrom from) self.old.ways.lanes.items → result ≡ Given }
        ensures failed { self.new.failures ≡ self.old.failures }
        ensures unsent { self.new.socket.unsent ≡ self.old.socket.unsent }
    {
        if self.is_bare {
            let is_given = self.is_open || is_reached_at(self.ways.lanes.as_slice(), from);
            return if is_given {
                Verdict::Given
            } else {
                Verdict::Strange
            };
        }
        let source = if self.is_open { None } else { Some(from) };
        self.ways.judge(datagram, source)
    }

    // Sends a word to a node's host and port at once.
    fn say_once(&mut self, node: Node, word: &Word)
        ensures failed { self.new.failures ≡ self.old.failures }
        ensures unsent { self.old.socket.unsent ≤ self.new.socket.unsent }
    {
        let socket = &mut self.socket;
        let Some(spelled) = self.ways.gate.spell(node, word) else {
            socket.lose();
            return;
        };
        for lane in self.ways.lanes.as_slice() {
            if lane.node() == node {
                socket.send(lane.address(), spelled);
            }
        }
    }

    // Takes the next datagram that is given; none where `TURN` in a row are dropped.
    fn take(&mut self, buffer: &mut [u8]) -> Result<Option<usize>, Fault>
        ensures within { IfOk result (λ count. IfSome count (λ n. n ≤ length buffer.new)) }
        ensures failed { self.new.failures ≡ failures_after self.old.failures result }
        ensures unsent { self.new.socket.unsent ≡ self.old.socket.unsent }
    {
        for _ in 0..TURN {
            match self.socket.receive(buffer) {
                Ok(Some((count, from))) => {
                    self.ways.hear_from(from);
                    let verdict = self.judge(&buffer[..count], from);
                    if verdict == Verdict::Given {
                        return Ok(Some(count));
                    }
                    self.ways.gate.count(verdict);
                }
                Ok(None) => return Ok(None),
                Err(_) => {
                    self.failures = self.failures.saturating_add(1);
                    return Err(Fault::Receive);
                }
            }
        }
        Ok(None)
    }
}

impl Net for SocketNet {
    ghost use Rattle.std.specs.Prelude.{None};

    ghost log = { λ _. None };

    ghost failed = { λ n. n.failures };

    ghost unsent = { λ n. n.socket.unsent };

    /// Sends it to the node's host and port, or holds it back, unless it is bare; one for a node that the settings do not list is lost, and does not count as unsent.
    fn send(&mut self, node: Node, bytes: &[u8]) {
        let socket = &mut self.socket;
        for lane in self.ways.lanes.as_mut_slice() {
            if lane.node() == node {
                if self.is_bare {
                    socket.send(lane.address(), bytes);
                } else {
                    send_on(socket, lane, bytes);
                }
            }
        }
    }

    /// Where a turn ends with it, the next one begins.
    fn receive(&mut self, buffer: &mut [u8]) -> Result<Option<usize>, Fault> {
        let answer = self.take(buffer);
        self.receives = self.receives.saturating_add(1);
        if !matches!(&answer, Ok(Some(_))) || TURN <= self.receives {
            self.receives = 0;
            let socket = &mut self.socket;
            for lane in self.ways.lanes.as_mut_slice() {
                go_on(socket, lane);
            }
        }
        answer
    }

    /// Where something is held back, no longer than `HELD_WAIT` milliseconds.
    fn wait(&mut self, limit: Duration) {
        let limit = if self.ways.holds_back() {
            limit.min(Duration::from_millis(HELD_WAIT))
        } else {
            limit
        };
        self.socket.wait(limit);
    }

    fn failures(&self) -> u64 {
        self.failures
    }

    fn unsent(&self) -> u64 {
        self.socket.unsent()
    }

    fn pass(&mut self, view: Option<ViewId>, members: &[Address]) {
        self.ways.gate.pass(view, members);
    }

    /// Sends it to the node's host and port at once; one for a node that the settings do not list is lost, and does not count as unsent.
    fn say(&mut self, node: Node, word: &Word) {
        self.say_once(node, word);
        if self.ways.gate.speaks_first(node) {
            self.say_once(node, &word.in_first_version());
        }
    }

    fn words(&self) -> &[Neighbour] {
        self.ways.gate.neighbours.told()
    }

    /// Also words that are spelled wrongly, or are of another group.
    fn strange(&self) -> u64 {
        self.ways.gate.strange
    }

    fn sieved(&self) -> u64 {
        self.ways.gate.sieved
    }
}
