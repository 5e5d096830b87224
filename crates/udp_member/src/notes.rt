ghost use Rattle.std.specs.Prelude.{◌≡◌, IfOk};
ghost use Rattle.udp_member.specs.RunnerNotes.{RunnerNotes, noted, nothing_noted};
ghost use Rattle.udp_member.specs.Detectors.{begun_anew, is_silent};

use crate::failure_detector::FailureDetector;
use crate::peers::Peers;
use address::{Address, Node};
use channel::{Error, Heard};
use std::alloc::{AllocError, Global};
use std::marker::Model;

/// What a runner notes of the datagrams that came: who was heard at the nodes where members may be sought, how many were of no use, and whom it
/// has not heard for how long.
pub(crate) struct RunnerNotes {
    pub(crate) alloc: Global,
    /// Who was heard at the nodes where members may be sought.
    pub(crate) peers: Peers,
    /// How many datagrams spelled no packet, at most 2^64 - 1.
    pub(crate) garbled: u64,
    /// How many packets were not for the channel, at most 2^64 - 1.
    pub(crate) foreign: u64,
    /// Whom it has not heard for how long.
    pub(crate) detector: FailureDetector,
}

impl Drop for RunnerNotes {
    fn drop(self) {
        let RunnerNotes {
            alloc: _,
            peers: _,
            garbled: _,
            foreign: _,
            detector: _,
        } = self;
    }
}

impl Model for RunnerNotes {
    ghost use Rattle.udp_member.specs.RunnerNotes.{RunnerNotes};

    ghost Value = { RunnerNotes };

    ghost view = { λ n. record { peers = n.peers; garbled = n.garbled; foreign = n.foreign; detector = n.detector } };
}

impl RunnerNotes {
    // Nothing came yet; members may be sought at these nodes, and `silent` rounds without a sign of life are too many.
    pub(crate) fn new(alloc: Global, nodes: &[Node], silent: u32) -> Result<RunnerNotes, AllocError>
        ensures { IfOk result (λ notes. notes ≡ nothing_noted nodes.now silent) }
    {
        Ok(RunnerNotes {
            alloc,
            peers: Peers::new(alloc, nodes)?,
            garbled: 0,
            foreign: 0,
            detector: FailureDetector::new(alloc, silent),
        })
    }

    // The channel answered this to a datagram. Takes no memory.
    pub(crate) fn note(&mut self, answer: &Result<Option<Heard>, Error>)
        ensures { self.new ≡ noted answer.now self.old }
    {
        match answer {
            Ok(Some(heard)) => {
                self.peers.hear(heard.source);
                self.detector.hear(heard);
            }
            Ok(None) => self.foreign = self.foreign.saturating_add(1),
            Err(Error::Wire(_)) => self.garbled = self.garbled.saturating_add(1),
            Err(Error::Refused(_)) => (),
        }
    }

    // Whether an address was silent for too long when the round was over.
    pub(crate) fn is_silent(&self, address: &Address) -> bool
        ensures { result ≡ is_silent self.now.detector address.now }
    {
        self.detector.is_silent(address)
    }

    // All counts of silence begin anew. Takes no memory.
    pub(crate) fn begin_anew(&mut self)
        ensures { self.new ≡ record self.old { detector = begun_anew self.old.detector } }
    {
        self.detector.begin_anew();
    }
}
