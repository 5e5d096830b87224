//! What a net does besides carrying packets: words come and go, and packets are dropped that would harm the group (docs/RUNNER.md, "What a net drops").

ghost use Rattle.std.specs.Prelude.{◌≡◌, not, if◌then◌else◌};
ghost use Rattle.udp_net.specs.Neighbours.{knows_second};
ghost use Rattle.udp_net.specs.Logs.{one_more};
ghost use Rattle.udp_net.specs.Strangers.{is_strange, is_sieved};

use crate::neighbours::Neighbours;
use crate::sieve::Sieve;
use crate::{Settings, WORD, Word};
use address::{Address, Node, ViewId};
use std::alloc::{AllocError, Global};
use step_output::OwnedName;

/// What becomes of a datagram that comes.
#[derive(Clone, Copy)]
pub(crate) enum Verdict {
    /// It is given.
    Given,
    /// It is a word, which counts.
    Told,
    /// It is dropped: it is no word of the group, or is not from the node that it names.
    Strange,
    /// It is dropped: the sieve does not let it through.
    Sieved,
}

/// The words of a group's nodes, the sieve for their packets, and how many datagrams were dropped.
pub(crate) struct Gate {
    pub(crate) sieve: Sieve,
    pub(crate) group: OwnedName,
    pub(crate) neighbours: Neighbours,
    // The bytes of the word that is said.
    spelled: Vec<u8>,
    pub(crate) strange: u64,
    pub(crate) sieved: u64,
}

impl Drop for Gate {
    fn drop(self) {
        let Gate {
            sieve: _,
            group: _,
            neighbours: _,
            spelled: _,
            strange: _,
            sieved: _,
        } = self;
    }
}

impl Gate {
    /// For the group and the nodes of the settings, of which none was heard.
    pub(crate) fn new(alloc: Global, settings: &Settings) -> Result<Gate, AllocError> {
        Ok(Gate {
            sieve: Sieve::new(alloc, settings.nodes(), settings.silent())?,
            group: OwnedName::of(&settings.group()),
            neighbours: Neighbours::new(alloc, settings.nodes())?,
            spelled: Vec::with_capacity(alloc, WORD)?,
            strange: 0,
            sieved: 0,
        })
    }

    /// Counts a datagram that is dropped.
    pub(crate) fn count(&mut self, verdict: Verdict)
        ensures strange { self.new.strange ≡ (if is_strange verdict then one_more self.old.strange else self.old.strange) }
        ensures sieved { self.new.sieved ≡ (if is_sieved verdict then one_more self.old.sieved else self.old.sieved) }
    {
        match verdict {
            Verdict::Given | Verdict::Told => {}
            Verdict::Strange => self.strange = self.strange.saturating_add(1),
            Verdict::Sieved => self.sieved = self.sieved.saturating_add(1),
        }
    }

    /// A round is over, and the member is in this view now, with these members, or in none.
    pub(crate) fn pass(&mut self, view: Option<ViewId>, members: &[Address]) {
        self.sieve.pass(view, members);
        self.neighbours.pass();
    }

    /// Whether a node is to be told the same in version 1 too: no word of version 2 is known of it.
    pub(crate) fn speaks_first(&self, node: Node) -> bool
        ensures { result ≡ not (knows_second node self.now.neighbours) }
    {
        !self.neighbours.knows_second(node)
    }

    /// The bytes of a word that is said to a node; `None` where memory is refused.
    pub(crate) fn spell(&mut self, node: Node, word: &Word) -> Option<&[u8]> {
        self.sieve.say_words();
        self.neighbours.answer(node);
        self.spelled.clear();
        if word.spell(&self.group.lent(), &mut self.spelled).is_err() {
            return None;
        }
        Some(self.spelled.as_slice())
    }
}
