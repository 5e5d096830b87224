//! How a node finds its group by words, and when it gives way to a greater view (docs/RUNNER.md, "Finding", "Giving way").

ghost use Rattle.std.specs.Prelude.{◌≡◌, MatchOption, None, Some};
ghost use Rattle.std.specs.Option.{is_some};
ghost use Rattle.node_finding.specs.Finding.{MayDoInView, MayDoOutside, StepsInView, StepsOutside, StepsThere, asked_after, asking, begun, gone_on, greater_than, holds_off, is_ago, is_counted, known_after, known_before, looking, looked_after, milliseconds_of, moment_of, own_members, own_rank, place_of, says_in, ticks, wanted_after, way_of, word_for};

use crate::Lineage;
use crate::ranks::{Moment, Offer, Rank};
use address::{Address, ViewId};
use std::time::Duration;
use udp_net::{Echo, Neighbour, Place, Word, WordVersion};

/// For how many ticks a word is fresh: what it answers was said so long ago at most.
const FRESH: u64 = 50;

/// For how many ticks a greater view must be there before a member gives way to it.
const GIVE: u64 = 125;

/// For how many ticks a node looks before it makes a group, and after how many it asks again.
const LOOK: u64 = 50;

/// For how many ticks it looks before it asks anybody, so that all who are there have answered.
const HEAR: u64 = 10;

/// For how many ticks it looks where somebody else is heard who should make the group.
const FAR: u64 = 250;

/// After how many ticks without a step a node takes itself to have been stopped.
const LATE: u64 = 10;

/// Every how many rounds a node says a word that looks for a view.
const LOOKER_SAYS: u64 = 5;

/// Every how many rounds a node says a word that is in a view.
const MEMBER_SAYS: u64 = 10;

// A node that gave way was wanted nowhere by a word that is older than any that is fresh.
const _: () = prove!(GIVE > 2 * FRESH);

/// What a node is to do.
#[derive(Clone, Copy)]
pub enum Step {
    /// Nothing.
    Stay,
    /// To ask an address to be let in.
    Ask(Address),
    /// To make a group.
    Make,
    /// To give up its address, and begin again as its next incarnation.
    Again,
}

/// The view in which a member is.
#[derive(Clone, Copy)]
pub struct Standing {
    /// Its id.
    pub view: ViewId,
    /// How many members it has.
    pub members: usize,
    /// What the member saw of its history, by the events that were counted.
    pub lineage: Lineage,
}

/// Where a member is.
#[derive(Clone, Copy)]
pub struct Whereabouts {
    /// Its address.
    pub own: Address,
    /// Its view, if it is in one.
    pub view: Option<Standing>,
}

// Whom a node asked to be let in, and when, in milliseconds.
#[derive(Clone, Copy)]
struct Asked {
    contact: Address,
    at: u64,
}

/// What a node knows of its search. Times are in milliseconds of its own clock.
#[derive(Drop)]
pub struct Finder {
    tick: u64,
    asked: Option<Asked>,
    // Since when it looks and is told of no view.
    looked: Option<u64>,
    // Since when it is in a view and is told of a greater one.
    wanted: Option<u64>,
    // The counter of the view from which on it knows a history, as in its member's lineage, and that history.
    given: u64,
    history: u64,
    // What it says of its own view.
    place: Option<Place>,
    // Whether it has said nothing yet of where it is.
    is_new: bool,
    // Whether it looked already.
    has_looked: bool,
    // Whether it sends nothing.
    holds: bool,
    // When it went on last.
    seen: Option<u64>,
}

/// A time in milliseconds; of one that is too long for 64 bits, the greatest number.
pub fn milliseconds(time: Duration) -> u64
    ensures { result ≡ milliseconds_of time }
{
    time.as_secs()
        .saturating_mul(1_000)
        .saturating_add(u64::from(time.subsec_millis()))
}

impl Finder {
    /// It begins to look; it asked this contact, if any.
    pub fn new(tick: Duration, contact: Option<Address>) -> Finder
        ensures { result ≡ begun (milliseconds_of tick) contact }
    {
        let asked = match contact {
            Some(contact) => Some(Asked { contact, at: 0 }),
            None => None,
        };
        Finder {
            tick: milliseconds(tick).max(1),
            asked,
            looked: None,
            wanted: None,
            given: 0,
            history: 0,
            place: None,
            is_new: true,
            has_looked: false,
            holds: false,
            seen: None,
        }
    }

    /// It goes on at this time. If it was stopped for long, it sends nothing before it has heard where the others are.
    pub fn go_on(&mut self, now: u64)
        ensures { self.new ≡ gone_on self.old now }
    {
        if let Some(seen) = self.seen {
            if now.saturating_sub(seen) > self.ticks(LATE) {
                self.holds = true;
            }
        }
        self.seen = Some(now);
    }

    /// Whether it sends nothing for now: it is told of a greater view, or hears nobody else of its own.
    pub fn holds(&self) -> bool
        ensures { result ≡ self.now.holds }
    {
        self.holds
    }

    /// What it is to do at this time. It waits until its member's installing of its view was counted.
    pub fn step(&mut self, now: u64, at: &Whereabouts, nodes: &[Neighbour]) -> Step
        ensures does { MatchOption at.now.view (StepsOutside self.old self.new (moment_of self.old.tick now at.now.own nodes.now) nodes.now result)
            (λ s. StepsThere self.old self.new (moment_of self.old.tick now at.now.own nodes.now) s nodes.now result) }
        ensures may { MatchOption at.now.view (MayDoOutside self.old (moment_of self.old.tick now at.now.own nodes.now) nodes.now result)
            (λ s. MayDoInView self.old (moment_of self.old.tick now at.now.own nodes.now) nodes.now s result) }
    {
        let moment = self.moment(now, at.own, nodes);
        match &at.view {
            Some(standing) if !is_counted(standing) => Step::Stay,
            Some(standing) => self.step_in_view(&moment, standing, nodes),
            None => self.step_outside(&moment, nodes),
        }
    }

    /// Whether it is to say a word in this round to a node, by whether that looks and said so.
    pub fn says(&self, round: u64, is_asked: bool) -> bool
        ensures { result ≡ says_in self.now round is_asked }
    {
        let every = if self.place.is_some() {
            MEMBER_SAYS
        } else {
            LOOKER_SAYS
        };
        self.is_new || is_asked || round % every == 0
    }

    /// The word for a node.
    pub fn word(&self, now: u64, own: Address, node: &Neighbour) -> Word
        ensures { result ≡ word_for self.now now own node.now }
    {
        let echo = match node.word {
            Some(word) => Some(Echo {
                address: word.source,
                said: word.said,
            }),
            None => None,
        };
        Word {
            version: WordVersion::Second,
            source: own,
            said: now,
            echo,
            place: self.place,
        }
    }

    // So many ticks, in milliseconds.
    fn ticks(&self, count: u64) -> u64
        ensures { result ≡ ticks self.now.tick count }
    {
        self.tick.saturating_mul(count)
    }

    // Who hears, when, and what is told of nodes.
    fn moment(&self, now: u64, own: Address, nodes: &[Neighbour]) -> Moment
        ensures { result ≡ moment_of self.now.tick now own nodes.now }
    {
        Moment::new(own, now, self.ticks(FRESH), nodes)
    }

    // What it knows of the history of its member's view, before it is told more. Where the member was given another state since, it knows nothing.
    fn known_before(&self, lineage: &Lineage) -> u64
        ensures { result ≡ known_before self.now lineage.now }
    {
        if self.given == lineage.given {
            self.history
        } else {
            0
        }
    }

    // It learns the latest history of its view that it knows, its member saw, or others tell who are there.
    fn learn(&mut self, moment: &Moment, at: &Standing, nodes: &[Neighbour])
        ensures given { self.new.given ≡ at.now.lineage.given }
        ensures history { self.new.history ≡ known_after self.old moment.now at.now nodes.now }
        ensures others { self.new ≡ record self.old { given = self.new.given; history = self.new.history } }
    {
        let known = self.known_before(&at.lineage).max(at.lineage.history);
        self.history = known.max(moment.history_in(at.view, nodes));
        self.given = at.lineage.given;
    }

    // Whether a time is so many ticks ago.
    fn is_ago(&self, now: u64, since: u64, count: u64) -> bool
        ensures { result ≡ is_ago self.now.tick now since count }
    {
        self.ticks(count) <= now.saturating_sub(since)
    }

    // The step of a member of a view: it gives way to a greater one that was there for long, and whose coordinator stays.
    fn step_in_view(&mut self, moment: &Moment, at: &Standing, nodes: &[Neighbour]) -> Step
        ensures { StepsInView self.old self.new moment.now at.now nodes.now result }
    {
        self.learn(moment, at, nodes);
        let own = own_rank(moment, self.history, at, nodes);
        let best = moment.greatest(Some(at.view), nodes);
        let greater = greater_than(&own, best);
        let is_alone = at.members > 1 && own.members == 1;
        self.stand(moment, &own, greater.is_some(), is_alone);
        self.way(moment.time, greater)
    }

    // What it does in a view, by a greater one, if there is one.
    fn way(&self, now: u64, greater: Option<Offer>) -> Step
        ensures { result ≡ way_of self.now.tick now self.now.wanted greater }
    {
        let Some(since) = self.wanted else {
            return Step::Stay;
        };
        match greater {
            Some(best) if best.stays && self.is_ago(now, since, GIVE) => Step::Again,
            _ => Step::Stay,
        }
    }

    // It is in a view of this rank, by whether there is a greater one, and whether it hears nobody else of its own.
    fn stand(&mut self, moment: &Moment, own: &Rank, is_wanting: bool, is_alone: bool)
        ensures wanted { self.new.wanted ≡ wanted_after self.old.wanted moment.now.time is_wanting }
        ensures asked { self.new.asked ≡ None }
        ensures looked { self.new.looked ≡ None }
        ensures tick { self.new.tick ≡ self.old.tick }
        ensures given { self.new.given ≡ self.old.given }
        ensures history { self.new.history ≡ self.old.history }
        ensures place { self.new.place ≡ Some (place_of moment.now.own own.now self.old.history is_wanting) }
    {
        self.asked = None;
        self.looked = None;
        self.wanted = if is_wanting {
            Some(self.wanted.unwrap_or(moment.time))
        } else {
            None
        };
        self.is_new = match self.place {
            Some(place) => place.view != own.view,
            None => true,
        };
        self.holds = is_wanting || is_alone;
        self.place = Some(Place {
            view: own.view,
            members: own.members,
            stays: !is_wanting && own.view.creator() == moment.own,
            history: self.history,
        });
    }

    // The step of who is in no view: it asks the coordinator of the greatest one of which it is told, or looks on. It asks nobody yet while it hears of a greater one, whose
    // coordinator may just have failed.
    fn step_outside(&mut self, moment: &Moment, nodes: &[Neighbour]) -> Step
        ensures { StepsOutside self.old self.new moment.now nodes.now result }
    {
        self.is_new = !self.has_looked;
        self.has_looked = true;
        self.wanted = None;
        self.place = None;
        self.holds = false;
        match moment.greatest(None, nodes) {
            Some(best) if self.holds_off(moment, &best.rank, nodes) => {
                self.looked = Some(self.looked.unwrap_or(moment.time));
                Step::Stay
            }
            Some(best) => {
                self.looked = None;
                self.ask(moment.time, best.rank.view.creator())
            }
            None => self.look_on(moment, nodes),
        }
    }

    // Whether it does not ask yet for a view of this rank: it has not looked for HEAR ticks; or not for FAR, and hears of a greater one.
    fn holds_off(&self, moment: &Moment, rank: &Rank, nodes: &[Neighbour]) -> bool
        ensures { result ≡ holds_off self.now moment.now nodes.now rank.now }
    {
        let since = self.looked.unwrap_or(moment.time);
        !self.is_ago(moment.time, since, HEAR)
            || (moment.hears_of_greater(rank, nodes) && !self.is_ago(moment.time, since, FAR))
    }

    // Asks an address, unless it did not long ago.
    fn ask(&mut self, now: u64, contact: Address) -> Step
        ensures does { result ≡ asking self.old now contact }
        ensures asked { self.new.asked ≡ asked_after self.old.asked now result }
        ensures others { self.new ≡ record self.old { asked = self.new.asked } }
    {
        if let Some(asked) = self.asked {
            if asked.contact == contact && !self.is_ago(now, asked.at, LOOK) {
                return Step::Stay;
            }
        }
        self.asked = Some(Asked { contact, at: now });
        Step::Ask(contact)
    }

    // Looks on, where it is told of no view. At last it makes a group; where it has asked somebody, its member can make none, so it begins again.
    fn look_on(&mut self, moment: &Moment, nodes: &[Neighbour]) -> Step
        ensures does { result ≡ looking self.old moment.now nodes.now }
        ensures looked { self.new.looked ≡ looked_after self.old.looked moment.now.time result }
        ensures others { self.new ≡ record self.old { looked = self.new.looked } }
    {
        let since = self.looked.unwrap_or(moment.time);
        self.looked = Some(since);
        let is_long = self.is_ago(moment.time, since, LOOK) && !moment.hears_another(nodes);
        if !is_long && !self.is_ago(moment.time, since, FAR) {
            return Step::Stay;
        }
        if self.asked.is_some() {
            return Step::Again;
        }
        self.looked = None;
        Step::Make
    }
}

// Whether the event was counted by which a member installed its view.
fn is_counted(at: &Standing) -> bool
    ensures { result ≡ is_counted at.now }
{
    match at.lineage.view {
        Some(view) => view == at.view,
        None => false,
    }
}

// How many members a member's own view has: as its coordinator tells; or, where this is the coordinator, or that one is not heard, those that say that they are there, and itself.
fn own_members(moment: &Moment, at: &Standing, nodes: &[Neighbour]) -> u8
    ensures { result ≡ own_members moment.now at.now nodes.now }
{
    match moment.told_of(at.view, nodes) {
        Some(offer) => offer.rank.members,
        None => {
            let count = moment.count_in(at.view, nodes).saturating_add(1);
            count.min(at.members).min(255) as u8
        }
    }
}

// The rank of a member's own view, whose history it knows.
fn own_rank(moment: &Moment, history: u64, at: &Standing, nodes: &[Neighbour]) -> Rank
    ensures { result ≡ own_rank moment.now history at.now nodes.now }
{
    Rank {
        history: moment.counted(history),
        members: own_members(moment, at, nodes),
        view: at.view,
    }
}

// A view, if it is greater than one's own.
fn greater_than(own: &Rank, best: Option<Offer>) -> Option<Offer>
    ensures { result ≡ greater_than own.now best }
{
    match best {
        Some(best) if best.rank.is_greater(own) => Some(best),
        _ => None,
    }
}
