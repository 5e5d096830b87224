ghost use Rattle.std.specs.Prelude.{◌≡◌, IfOk};
ghost use Rattle.std.specs.Result.{result_err};
ghost use Rattle.std.specs.Borrow.{sem};
ghost use Rattle.udp_member.specs.Offers.{Offers};
ghost use Rattle.udp_net.specs.Logs.{Lists};
ghost use Rattle.channel.specs.Channels.{view_in};
ghost use Rattle.udp_member.specs.RunnerNotes.{having_met, nothing_noted};
ghost use Rattle.udp_member.specs.Turns.{Datagram, Hint, Suspect, Tick, driven};
ghost use Rattle.udp_member.specs.Rounds.{HandsIn, PassesOver, Receives, Hears, Suspects, SuspectsOf, Rounds};
ghost use Rattle.udp_member.specs.Seeking.{Seeks, sought, turned};
ghost use Rattle.udp_member.specs.Lends.{lends_channel, lends_net};

use crate::failure_detector::standing_of;
use crate::notes::RunnerNotes;
use crate::offering::offer_all;
use crate::pace::Pace;
use address::limits::{DATAGRAM, Refusal};
use address::{Address, Node};
use channel::{Channel, Error};
use state_transfer::Receiver;
use std::alloc::{AllocError, Global};
use std::marker::Model;
use std::time::Duration;
use udp_net::{Fault, Net};

/// The most receives of a round.
pub const RECEIVES: usize = 64;

/// Drives a channel over a net, by rounds.
pub struct Runner<N: Net, R: Receiver> {
    net: N,
    channel: Channel<R>,
    notes: RunnerNotes,
    pace: Pace,
    buffer: Vec<u8>,
    faults: u64,
}

impl<N: Net, R: Receiver> Drop for Runner<N, R> {
    fn drop(self) {
        let Runner {
            net: _,
            channel: _,
            notes: _,
            pace: _,
            buffer: _,
            faults: _,
        } = self;
    }
}

impl<N: Net, R: Receiver> Model for Runner<N, R> {
    ghost use Rattle.udp_member.specs.Turns.{Driven, driven};

    ghost Value = { Driven N R };

    ghost view = { λ r. driven r.net r.channel r.faults r.notes };
}

// Whether the round goes on: a call that the channel refused with anything but 6 and 7 is passed over.
fn passed_over(answer: Result<(), Error>) -> Result<(), Error>
    ensures { PassesOver (result_err answer) (result_err result) }
{
    match answer {
        Err(Error::Refused(Refusal::Closed)) => Err(Error::Refused(Refusal::Closed)),
        Err(Error::Refused(Refusal::Memory)) => Err(Error::Refused(Refusal::Memory)),
        _ => Ok(()),
    }
}

// Hands in a datagram, and notes what came of it.
fn hand_in<R: Receiver>(
    channel: &mut Channel<R>,
    notes: &mut RunnerNotes,
    bytes: &[u8],
) -> Result<(), Error>
    ensures { HandsIn R.meaning (Datagram bytes.now) channel.old notes.old (result_err result) channel.new notes.new }
{
    let answer = channel.incoming(bytes);
    notes.note(&answer);
    match answer {
        Ok(_) => Ok(()),
        Err(error) => passed_over(Err(error)),
    }
}

impl<N: Net, R: Receiver> Runner<N, R> {
    /// The runner of a channel over a net. It suspects whom it watches after `silent` rounds without a sign of life, and seeks members of its group at these nodes.
    /// Its buffer is longer by one byte than the longest datagram, so that a longer one is not taken for a packet.
    pub fn new(
        alloc: Global,
        net: N,
        channel: Channel<R>,
        nodes: &[Node],
        silent: u32,
    ) -> Result<Runner<N, R>, AllocError>
        ensures { IfOk result (λ runner. runner ≡ driven net channel 0 (nothing_noted nodes.now silent)) }
    {
        let buffer = vec![in alloc; 0; DATAGRAM + 1]?;
        Ok(Runner {
            net,
            channel,
            notes: RunnerNotes::new(alloc, nodes, silent)?,
            pace: Pace::new(),
            buffer,
            faults: 0,
        })
    }

    /// One round. Datagrams are received, at most `RECEIVES`, until none waits or a receive fails, and each is handed to the channel. Then the round counts for each
    /// address that the channel watches and from which no sign of life came: after `silent` such rounds, and twice as many while it waits for another's view, the address
    /// is handed in as suspected. Last comes a tick of the channel. Nothing is offered to the net: what the channel puts out by these steps waits in it (`offer`).
    ///
    /// What is a sign of life depends on where the member stands (docs/RUNNER.md, "Failure detection"): in an open view the packets of that view, in a flush of its own the answers
    /// to it, and else what belongs to the promise. Counts begin anew where it stands elsewhere, and after each suspicion. Where memory is refused for the list of whom it
    /// watches, or for their counts, nothing is counted and nobody suspected in this round.
    ///
    /// The round is cut short exactly where the channel answers 6 or 7 to what is handed in, with that answer: the channel has ended then. All that the channel
    /// refuses else is passed over.
    pub fn round(&mut self) -> Result<(), Error>
        ensures { Rounds N.log N.failed R.meaning self.old (result_err result) self.new }
    {
        let _count = self.listen()?;
        self.suspect_silent()?;
        self.tick()
    }

    /// The first part of a round, for who wants to hear more often than it has rounds: datagrams are received and handed in as in a round. Nothing is counted for the
    /// silent, no time passes, and nothing is offered. It answers how many datagrams came: where they are `RECEIVES`, more may wait.
    ///
    /// It is cut short exactly where the channel answers 6 or 7 to a datagram, with that answer.
    pub fn listen(&mut self) -> Result<usize, Error>
        ensures { Hears N.log N.failed R.meaning self.old result self.new }
    {
        for turn in 0..RECEIVES {
            let came = self.receive_one()?;
            if !came {
                return Ok(turn);
            }
        }
        Ok(RECEIVES)
    }

    /// Offers what waits in the channel to the net, each packet once and in order, and flushes the net. To be called after each round, and after all that makes the channel put something out:
    /// by then take what happened by it, and write what is told of it. So nobody hears of what is in no text yet (docs/EMBEDDING.md).
    pub fn offer(&mut self)
        ensures offers { Offers N.log N.failed self.old.net self.old.channel self.new.net self.new.channel }
        ensures faults { self.new.faults ≡ self.old.faults }
        ensures notes { self.new.notes ≡ self.old.notes }
    {
        offer_all(&mut self.net, &mut self.channel);
    }

    /// Waits until a datagram waits at the net, but no longer than `limit`, for who has nothing else to do. Nothing is received by it. While many datagrams come it
    /// returns at once: the next one is soon there, and a sleep would take longer.
    pub fn wait(&mut self, limit: Duration)
        ensures lists { Lists (N.log self.old.net) (λ l. l) (N.log self.new.net) }
        ensures failed { N.failed self.new.net ≡ N.failed self.old.net }
        ensures others { self.new ≡ record self.old { net = self.new.net } }
    {
        if !self.pace.is_busy() {
            self.net.wait(limit);
        }
    }

    /// Tells the net that a round is over, and in which view its member is; and notes who is in that view, who may be sought from then on. Nothing is handed in by it. To be
    /// called after each round.
    pub fn meet(&mut self)
        ensures lists { Lists (N.log self.old.net) (λ l. l) (N.log self.new.net) }
        ensures failed { N.failed self.new.net ≡ N.failed self.old.net }
        ensures channel { self.new.channel ≡ self.old.channel }
        ensures faults { self.new.faults ≡ self.old.faults }
        ensures notes { self.new.notes ≡ having_met (view_in self.old.channel.stage) self.old.notes }
    {
        match self.channel.view() {
            Some(view) => {
                self.notes.peers.meet(view.members().as_slice());
                self.net.pass(Some(view.id()), view.members().as_slice());
            }
            None => self.net.pass(None, &[]),
        }
    }

    /// Looks for members of its group that are not in its view, as after a wrong suspicion or while a network was parted: where the channel is the coordinator of
    /// its view, a node of those of `new` is chosen where somebody was heard or stood in a view, and of which nobody is in its view, and the channel is given its
    /// latest address as a hint (docs/PROTOCOL.md, "Merging"). What the channel puts out by it waits in it. At each call it is the next such node's turn; there is no
    /// hint where there is none. To be called between two rounds, every some rounds.
    ///
    /// It is answered as a round is where the channel answers 6 or 7.
    pub fn seek(&mut self) -> Result<(), Error>
        ensures { Seeks N.log N.failed R.meaning self.old (result_err result) self.new }
    {
        match self.next_sought() {
            Some(address) => self.hint(address),
            None => Ok(()),
        }
    }

    /// How many receives failed, at most 2^64 - 1.
    pub fn faults(&self) -> u64
        ensures { result ≡ self.now.faults }
    {
        self.faults
    }

    /// How many datagrams spelled no packet, at most 2^64 - 1.
    pub fn garbled(&self) -> u64
        ensures { result ≡ self.now.notes.garbled }
    {
        self.notes.garbled
    }

    /// How many packets came that were not for its channel, at most 2^64 - 1: of another group, to another address, as of an earlier incarnation, or from its own.
    pub fn foreign(&self) -> u64
        ensures { result ≡ self.now.notes.foreign }
    {
        self.notes.foreign
    }

    /// Its channel.
    pub fn channel(&mut self) -> &mut Channel<R>
        ensures* writes_back { sem 𝓛 (lends_channel N.row R.row N.Net R.Receiver self.entry result) }
        ensures value { result.now ≡ self.old.channel }
    {
        &mut self.channel
    }

    /// Its channel, to look at.
    pub fn channel_ref(&self) -> &Channel<R>
        ensures { result.now ≡ self.now.channel }
    {
        &self.channel
    }

    /// Its net.
    pub fn net(&mut self) -> &mut N
        ensures* writes_back { sem 𝓛 (lends_net N.row R.row N.Net R.Receiver self.entry result) }
        ensures value { result.now ≡ self.old.net }
    {
        &mut self.net
    }

    /// Its net, to look at.
    pub fn net_ref(&self) -> &N
        ensures { result.now ≡ self.now.net }
    {
        &self.net
    }

    /// Its net, where it drives its channel no more: what waits in the channel is lost.
    pub fn into_net(self) -> N
        ensures { result ≡ self.net }
    {
        let Runner {
            net,
            channel: _,
            notes: _,
            pace: _,
            buffer: _,
            faults: _,
        } = self;
        net
    }

    // Receives a datagram and hands it in; answers whether there was one.
    fn receive_one(&mut self) -> Result<bool, Error>
        ensures { Receives N.log N.failed R.meaning self.old result self.new }
    {
        match self.net.receive(self.buffer.as_mut_slice()) {
            Ok(Some(count)) => {
                let bytes = &self.buffer.as_slice()[..count];
                self.pace.hear();
                hand_in(&mut self.channel, &mut self.notes, bytes)?;
                Ok(true)
            }
            Ok(None) => {
                self.pace.miss();
                Ok(false)
            }
            Err(Fault::Receive) => {
                self.faults = self.faults.saturating_add(1);
                Ok(false)
            }
        }
    }

    // Counts the round for those who are watched, and hands in whom it has not heard for too long. For want of memory nothing is counted and nobody suspected.
    fn suspect_silent(&mut self) -> Result<(), Error>
        ensures { Suspects N.log N.failed R.meaning self.old (result_err result) self.new }
    {
        let Ok(watched) = self.channel.watched() else {
            return Ok(());
        };
        let standing = standing_of(&self.channel);
        let (alloc, watched) = (self.notes.alloc, watched.as_slice());
        match self.notes.detector.pass(alloc, &standing, watched) {
            Ok(()) => self.suspect_all(watched),
            Err(_) => Ok(()),
        }
    }

    // Hands in those of the watched that are silent; then the counts begin anew, if there was one.
    fn suspect_all(&mut self, watched: &[Address]) -> Result<(), Error>
        ensures { SuspectsOf N.log N.failed R.meaning watched.now self.old (result_err result) self.new }
    {
        let mut is_heard = true;
        for address in watched {
            if self.notes.is_silent(address) {
                is_heard = false;
                self.suspect(*address)?;
            }
        }
        if !is_heard {
            self.notes.begin_anew();
        }
        Ok(())
    }

    // Hands in an address as suspected.
    fn suspect(&mut self, address: Address) -> Result<(), Error>
        ensures hands { HandsIn R.meaning (Suspect address) self.old.channel self.old.notes (result_err result) self.new.channel self.new.notes }
        ensures net { self.new.net ≡ self.old.net }
        ensures faults { self.new.faults ≡ self.old.faults }
    {
        passed_over(self.channel.suspect(address))
    }

    // Tells the channel that time passes.
    fn tick(&mut self) -> Result<(), Error>
        ensures hands { HandsIn R.meaning Tick self.old.channel self.old.notes (result_err result) self.new.channel self.new.notes }
        ensures net { self.new.net ≡ self.old.net }
        ensures faults { self.new.faults ≡ self.old.faults }
    {
        self.pace.begin();
        let answer = self.channel.tick();
        passed_over(answer)
    }

    // Whom to seek, if anybody.
    fn next_sought(&mut self) -> Option<Address>
        ensures answer { result ≡ sought self.old }
        ensures after { self.new ≡ turned self.old }
    {
        match self.channel.view() {
            Some(view) if view.id().creator() == self.channel.address() => {
                self.notes.peers.next_outside(view)
            }
            _ => None,
        }
    }

    // Hands in the address of whom it seeks.
    fn hint(&mut self, address: Address) -> Result<(), Error>
        ensures hands { HandsIn R.meaning (Hint address) self.old.channel self.old.notes (result_err result) self.new.channel self.new.notes }
        ensures net { self.new.net ≡ self.old.net }
        ensures faults { self.new.faults ≡ self.old.faults }
    {
        passed_over(self.channel.merge_hint(address))
    }
}
