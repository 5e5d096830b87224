//! Whom a member has not heard for how long (docs/RUNNER.md, "Failure detection").

ghost use Rattle.std.specs.Prelude.{◌≡◌, map, OnOk, IfErr};
ghost use Rattle.std.specs.Option.{option_copied};
ghost use Rattle.udp_member.specs.declared.failure_detector.Standing.TheVariants.{Outside, Open, Flushes, Waits};
ghost use Rattle.udp_member.specs.Detectors.{after_packet, after_round, begun_anew, count_of, counted, is_about, is_new, is_same, is_silent, is_sign_of_life, most, never_heard, rounds_after, standing_of};

use address::{Address, ViewId};
use channel::{Channel, Heard};
use state_transfer::Receiver;
use std::alloc::{AllocError, Global};
use std::marker::Model;

/// For how many times the rounds of silence a REPORT is a sign of life in an open view: who sends it has missed its INSTALL, and is on its way in.
pub const ENTRY: u64 = 3;

/// How many times the rounds of silence are borne while another makes a view.
pub const PATIENCE: u64 = 2;

// The kinds of packets (docs/WIRE.md, "The kinds").
pub const FORWARD: u8 = 4;

pub const STATUS: u8 = 8;

pub const FLUSH: u8 = 9;

pub const BEHIND: u8 = 10;

pub const REPORT: u8 = 11;

pub const INSTALL: u8 = 12;

pub const STATE: u8 = 14;

/// Where a member stands.
#[derive(Clone, Copy)]
pub enum Standing {
    /// In no view.
    Outside,
    /// In this view, which is open.
    Open(ViewId),
    /// Blocked, with a flush of its own for this proposal.
    Flushes(ViewId),
    /// Blocked, and waiting for the view of this proposal, which is another's.
    Waits(ViewId),
}

/// For how many rounds no sign of life came from an address, and whether one came in this round.
#[derive(Clone, Copy)]
pub struct Count {
    /// The address.
    pub address: Address,
    /// The rounds.
    pub rounds: u64,
    /// Whether one came in this round.
    pub is_heard: bool,
}

// The rounds without a sign of life of each address that was watched when the last round was over, and where the member stood then.
#[derive(Drop)]
pub(crate) struct FailureDetector {
    silent: u32,
    standing: Standing,
    // For how many rounds it has stood there.
    age: u64,
    counts: Vec<Count>,
}

impl Model for FailureDetector {
    ghost use Rattle.udp_member.specs.Detectors.{FailureDetector};

    ghost Value = { FailureDetector };

    ghost view = { λ s. record { silent = s.silent; standing = s.standing; age = s.age; counts = s.counts.items } };
}

fn is_outside(standing: Standing) -> bool
    ensures { result ≡ is_same Outside standing }
{
    match standing {
        Standing::Outside => true,
        _ => false,
    }
}

fn is_open(standing: Standing, id: ViewId) -> bool
    ensures { result ≡ is_same (Open id) standing }
{
    match standing {
        Standing::Open(view) => id == view,
        _ => false,
    }
}

fn is_flush(standing: Standing, id: ViewId) -> bool
    ensures { result ≡ is_same (Flushes id) standing }
{
    match standing {
        Standing::Flushes(proposal) => id == proposal,
        _ => false,
    }
}

fn is_wait(standing: Standing, id: ViewId) -> bool
    ensures { result ≡ is_same (Waits id) standing }
{
    match standing {
        Standing::Waits(proposal) => id == proposal,
        _ => false,
    }
}

// Whether both are the same place.
fn is_same(one: Standing, other: Standing) -> bool
    ensures { result ≡ is_same one other }
{
    match one {
        Standing::Outside => is_outside(other),
        Standing::Open(view) => is_open(other, view),
        Standing::Flushes(proposal) => is_flush(other, proposal),
        Standing::Waits(proposal) => is_wait(other, proposal),
    }
}

/// Where a channel's member stands.
pub(crate) fn standing_of<R: Receiver>(channel: &Channel<R>) -> Standing
    ensures { result ≡ standing_of channel.now }
{
    let Some(view) = channel.view() else {
        return Standing::Outside;
    };
    if !channel.is_blocked() {
        return Standing::Open(view.id());
    }
    match channel.promised() {
        None => Standing::Outside,
        Some(proposal) if proposal.creator() == channel.address() => Standing::Flushes(proposal),
        Some(proposal) => Standing::Waits(proposal),
    }
}

// Whether a packet is about a view, or a proposal.
fn is_about(heard: &Heard, id: ViewId) -> bool
    ensures { result ≡ is_about id heard.now }
{
    match heard.about {
        Some(about) => about == id,
        None => false,
    }
}

// Whether a packet is a sign of life for a member that stands so; `is_new` while others may be on their way into its view.
fn is_sign_of_life(standing: Standing, is_new: bool, heard: &Heard) -> bool
    ensures { result ≡ is_sign_of_life standing is_new heard.now }
{
    let kind = heard.kind;
    match standing {
        Standing::Outside => false,
        Standing::Open(view) => {
            let is_of_view = (FORWARD <= kind && kind <= STATUS)
                || kind == INSTALL
                || kind == STATE;
            (is_of_view || (is_new && kind == REPORT)) && is_about(heard, view)
        }
        Standing::Flushes(proposal) => (kind == REPORT || kind == BEHIND)
            && is_about(heard, proposal),
        Standing::Waits(proposal) => {
            (kind == FLUSH || kind == INSTALL || kind == STATE) && is_about(heard, proposal)
        }
    }
}

// A sign of life came from an address.
fn counted(count: Count, source: Address) -> Count
    ensures { result ≡ counted source count }
{
    if count.address != source {
        return count;
    }
    Count {
        address: count.address,
        rounds: count.rounds,
        is_heard: true,
    }
}

fn count_all(counts: &mut [Count], source: Address)
    ensures { counts.new ≡ map (counted source) counts.old }
{
    for count in counts.iter_mut() {
        *count = counted(*count, source);
    }
}

// What is known of an address.
fn count_of<'a>(counts: &'a [Count], address: &Address) -> Option<&'a Count>
    ensures { option_copied result ≡ count_of address.now counts.now }
{
    for count in counts {
        if count.address == *address {
            return Some(count);
        }
    }
    None
}

impl FailureDetector {
    // Nobody is watched yet; `silent` rounds without a sign of life are too many. Takes no memory.
    pub(crate) fn new(alloc: Global, silent: u32) -> FailureDetector
        ensures { result ≡ never_heard silent }
    {
        FailureDetector {
            silent,
            standing: Standing::Outside,
            age: 0,
            counts: Vec::new(alloc),
        }
    }

    // A packet came. Takes no memory.
    pub(crate) fn hear(&mut self, heard: &Heard)
        ensures { self.new ≡ after_packet heard.now self.old }
    {
        if is_sign_of_life(self.standing, self.is_new(), heard) {
            count_all(self.counts.as_mut_slice(), heard.source);
        }
    }

    // A round is over, where the member stands so, with these addresses watched: each of them has its count, and nobody else. An error for want of memory changes nothing.
    pub(crate) fn pass(
        &mut self,
        alloc: Global,
        standing: &Standing,
        watched: &[Address],
    ) -> Result<(), AllocError>
        ensures passed { OnOk result (self.new ≡ after_round standing.now watched.now self.old) }
        ensures memory { IfErr result (λ e. self.new ≡ self.old) }
    {
        let stays = is_same(self.standing, *standing);
        let mut counts = Vec::new(alloc);
        for address in watched {
            counts.push(Count {
                address: *address,
                rounds: self.rounds_after(stays, address),
                is_heard: false,
            })?;
        }
        self.counts = counts;
        self.standing = *standing;
        self.age = if stays { self.age.saturating_add(1) } else { 0 };
        Ok(())
    }

    // Whether an address was silent for too long when the round was over.
    pub(crate) fn is_silent(&self, address: &Address) -> bool
        ensures { result ≡ is_silent self.now address.now }
    {
        match count_of(self.counts.as_slice(), address) {
            Some(count) => count.rounds >= self.most(),
            None => false,
        }
    }

    // All counts begin anew. Takes no memory.
    pub(crate) fn begin_anew(&mut self)
        ensures { self.new ≡ begun_anew self.old }
    {
        self.counts.clear();
    }

    // The rounds of an address when the round is over; they begin anew in another standing.
    fn rounds_after(&self, stays: bool, address: &Address) -> u64
        ensures { result ≡ rounds_after stays self.now.counts address.now }
    {
        if !stays {
            return 0;
        }
        match count_of(self.counts.as_slice(), address) {
            Some(count) if !count.is_heard => count.rounds.saturating_add(1),
            _ => 0,
        }
    }

    // Whether others may be on their way into its view.
    fn is_new(&self) -> bool
        ensures { result ≡ is_new self.now }
    {
        self.age < ENTRY * u64::from(self.silent)
    }

    // How many rounds without a sign of life are too many.
    fn most(&self) -> u64
        ensures { result ≡ most self.now }
    {
        match self.standing {
            Standing::Waits(_) => PATIENCE * u64::from(self.silent),
            _ => u64::from(self.silent),
        }
    }
}
