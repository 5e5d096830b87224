use crate::Counter;
use crate::messages::{Unsent, taken_back};
use address::Address;
use address::limits::Refusal;
use channel::{Channel, Error};
use state_transfer::Receiver;
use std::alloc::Global;
use std::io;
use std::io::ErrorKind;
use std::time::{Clock, Duration};
use udp_member::{RECEIVES, Runner};
use udp_net::{Net, Settings};

/// The time between two rounds, in milliseconds.
const TICK: u64 = 20;

/// How often a node listens between two rounds, at most, so that others cannot keep it from its rounds.
const LISTENS: u32 = 4_096;

/// After how many rounds a node looks for members outside of its view.
const SEEK: u64 = 50;

/// A node that counts with its group.
pub struct CountingNode<N: Net> {
    runner: Runner<N, Counter>,
    unsent: Unsent,
    has_ended: bool,
    shown: Option<u64>,
}

impl<N: Net> Drop for CountingNode<N> {
    fn drop(self) {
        let CountingNode {
            runner: _,
            unsent: _,
            has_ended: _,
            shown: _,
        } = self;
    }
}

impl<N: Net> CountingNode<N> {
    /// The node of an address over its net: it makes a group, or asks a contact to let it into its group.
    pub fn new(
        alloc: Global,
        settings: &Settings,
        net: N,
        address: Address,
        contact: Option<Address>,
    ) -> io::Result<CountingNode<N>> {
        let mut channel = Channel::new(alloc, address, Counter::opening(alloc)?);
        let group = settings.group();
        let connected = match contact {
            Some(contact) => channel.connect_to(group.as_slice(), contact),
            None => channel.connect_new(group.as_slice()),
        };
        if connected.is_err() {
            return Err(io::Error::from(ErrorKind::InvalidInput));
        }
        let mut nodes = Vec::new(alloc);
        for place in settings.nodes() {
            nodes.push(place.node)?;
        }
        let silent = u32::from(settings.silent());
        Ok(CountingNode {
            runner: Runner::new(alloc, net, channel, nodes.as_slice(), silent)?,
            unsent: Unsent::new(alloc),
            has_ended: false,
            shown: None,
        })
    }

    /// Counts one more: a message is sent as soon as the channel takes it.
    pub fn count(&mut self) -> io::Result<()> {
        self.unsent.push()
    }

    /// By the clock, once a tick: a round, and sometimes a search for members outside of its view.
    pub fn round(&mut self, round: u64) -> io::Result<()> {
        let mut answer = self.runner.round();
        self.runner.meet();
        if answer.is_ok() && round % SEEK == 0 {
            answer = self.runner.seek();
        }
        self.goes_on(answer)
    }

    /// Between two rounds: handles datagrams as they come, and sleeps while none does, until a tick is over.
    pub fn rest<R: Clock>(&mut self, clock: &R) -> io::Result<()> {
        let due = clock
            .monotonic()?
            .saturating_add(Duration::from_millis(TICK));
        for _ in 0..LISTENS {
            let left = due.saturating_sub(clock.monotonic()?);
            if self.has_ended || left == Duration::ZERO {
                break;
            }
            match self.runner.listen() {
                Ok(count) => {
                    self.goes_on(Ok(()))?;
                    if count < RECEIVES {
                        self.runner.wait(left);
                    }
                }
                Err(error) => self.goes_on(Err(error))?,
            }
        }
        Ok(())
    }

    // What comes after each call of the runner: what happened is taken first, since messages that were handed back go before others; then what waits is sent; and last the
    // packets go out that all this put out.
    fn goes_on(&mut self, answer: Result<(), Error>) -> io::Result<()> {
        if answer.is_err() {
            self.has_ended = true;
        }
        taken_back(self.runner.channel(), &mut self.unsent)?;
        self.send_all()?;
        self.runner.offer();
        Ok(())
    }

    // Sends what waits, in order. A message that is refused waits on, and what is behind it too.
    fn send_all(&mut self) -> io::Result<()> {
        while let Some(payload) = self.unsent.pop() {
            match self.runner.channel().send(payload) {
                Ok(_number) => (),
                Err((payload, refused)) => {
                    if is_end(refused) {
                        self.has_ended = true;
                    }
                    return self.unsent.push_front(payload);
                }
            }
        }
        Ok(())
    }

    /// Whether the member has ended. Its node starts again as a new member, under its next incarnation.
    pub fn has_ended(&self) -> bool {
        self.has_ended
    }

    /// Prints the count, if it is another than before.
    pub fn show<R: Print>(&mut self, rt: &R) -> io::Result<()> {
        let address = self.runner.channel().address();
        let count = match self.runner.channel().receiver() {
            Some(counter) => Some(counter.count),
            None => None,
        };
        if count == self.shown {
            return Ok(());
        }
        self.shown = count;
        match count {
            Some(count) => println!(rt; "{address} counts {count}"),
            None => println!(rt; "{address} has ended"),
        }
    }
}

// Whether the channel has ended by this refusal.
fn is_end(refused: Error) -> bool {
    match refused {
        Error::Refused(Refusal::Closed) => true,
        Error::Refused(Refusal::Memory) => true,
        _ => false,
    }
}
