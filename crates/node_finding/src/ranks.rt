//! Which of two views is the greater one, and which is the greatest of which a node is told (docs/RUNNER.md, "Finding").

ghost use Rattle.std.specs.Prelude.{◌≡◌, ◌≤◌, true, false};
ghost use Rattle.std.specs.List.{list_any};
ghost use Rattle.address.specs.Ids.{same_view_id};
ghost use Rattle.node_finding.specs.declared.ranks.Rank.{Rank as RankValue};
ghost use Rattle.node_finding.specs.Ranks.{IsGreatest, count_in, counted, greater_of, has_more, history_in, is_awaited, is_first, is_fresh, is_greater_untold, is_of, is_of_greater, is_there, moment_at, offer_in, offer_of, other_of, outranks, rank_of, speaks_first, told, told_history, told_of, untold_rank, word_of};

use address::{Address, ViewId};
use udp_net::{Neighbour, Place, Word, WordVersion};

/// How great a view is.
#[derive(Clone, Copy)]
pub struct Rank {
    /// Its history: the counter of the latest view of its lineage in which a message was delivered, as far as it is told; 0 if there is none, or history does not count.
    pub history: u64,
    /// How many members are there, as its coordinator counts them: from 1.
    pub members: u8,
    /// Its id.
    pub view: ViewId,
}

impl Rank {
    /// Whether it is greater than another: it has a later history; or the same, and more members, or as many and a greater id.
    pub fn is_greater(&self, other: &Rank) -> bool
        ensures { result ≡ outranks self.now other.now }
    {
        self.history > other.history || (self.history == other.history && self.has_more(other))
    }

    // Whether it has more members than another, or as many and a greater id.
    fn has_more(&self, other: &Rank) -> bool
        ensures { result ≡ has_more self.now other.now }
    {
        self.members > other.members || (self.members == other.members && self.view > other.view)
    }
}

/// It does nothing: its clauses say that ranks decide alike for all. No view is greater than itself; of two views one at most is the greater; one is, unless they have the same id;
/// and what is no greater than a view is no greater than one that it is no greater than. A view with a history is greater than one without, however many members that has.
pub fn ranks_are_ordered()
    ensures strict { (a : RankValue) → outranks a a ≡ false }
    ensures antisymmetric { (a b : RankValue) → outranks a b ≡ true → outranks b a ≡ false }
    ensures total { (a b : RankValue) → outranks a b ≡ false → outranks b a ≡ false → same_view_id a.view b.view ≡ true }
    ensures transitive { (a b c : RankValue) → outranks a b ≡ false → outranks b c ≡ false → outranks a c ≡ false }
    ensures history { (a b : RankValue) → 1 ≤ a.history → b.history ≡ 0 → outranks a b ≡ true }
{}

/// A view as its coordinator tells of it.
#[derive(Clone, Copy)]
pub struct Offer {
    /// How great it is.
    pub rank: Rank,
    /// Whether its coordinator stays there: it knows of no greater view.
    pub stays: bool,
}

/// Who hears words, and when.
#[derive(Clone, Copy)]
pub struct Moment {
    /// The address of who hears.
    pub own: Address,
    /// The time there, in milliseconds.
    pub time: u64,
    /// For how long a word is fresh, in milliseconds.
    pub fresh: u64,
    /// Whether history counts in ranks: not while a fresh word of version 1 is there, whose node cannot compare it.
    pub counts_history: bool,
}

// Whether a word of a version tells no history.
fn is_first(version: WordVersion) -> bool
    ensures { result ≡ is_first version }
{
    match version {
        WordVersion::First => true,
        WordVersion::Second => false,
    }
}

impl Moment {
    /// Who hears, at a time, with words that are fresh for so long, and what is told of nodes there.
    pub fn new(own: Address, time: u64, fresh: u64, nodes: &[Neighbour]) -> Moment
        ensures { result ≡ moment_at own time fresh nodes.now }
    {
        let plain = Moment {
            own,
            time,
            fresh,
            counts_history: false,
        };
        Moment {
            own,
            time,
            fresh,
            counts_history: !plain.hears_first(nodes),
        }
    }

    // Whether a fresh word of some node is of version 1.
    fn hears_first(&self, nodes: &[Neighbour]) -> bool
        ensures { result ≡ list_any (speaks_first self.now) nodes.now }
    {
        for node in nodes {
            if self.speaks_first(node) {
                return true;
            }
        }
        false
    }

    // Whether the fresh word of a node is of version 1.
    fn speaks_first(&self, node: &Neighbour) -> bool
        ensures { result ≡ speaks_first self.now node.now }
    {
        match self.word_of(node) {
            Some(word) => is_first(word.version),
            None => false,
        }
    }

    /// The history of a view as it counts in its rank.
    pub fn counted(&self, history: u64) -> u64
        ensures { result ≡ counted self.now history }
    {
        if self.counts_history { history } else { 0 }
    }

    // The rank of a view by what is told of it.
    fn rank_of(&self, place: &Place) -> Rank
        ensures { result ≡ rank_of self.now place.now }
    {
        Rank {
            history: self.counted(place.history),
            members: place.members,
            view: place.view,
        }
    }

    /// Whether a word is fresh: it answers one that this very address said, and that not long ago.
    pub fn is_fresh(&self, word: &Word) -> bool
        ensures { result ≡ is_fresh self.now word.now }
    {
        match word.echo {
            Some(echo) => {
                echo.address == self.own
                    && echo.said <= self.time
                    && self.time - echo.said <= self.fresh
            }
            None => false,
        }
    }

    // The fresh word of a node, if there is one.
    fn word_of(&self, node: &Neighbour) -> Option<Word>
        ensures { result ≡ word_of self.now node.now }
    {
        let word = node.word?;
        if self.is_fresh(&word) {
            Some(word)
        } else {
            None
        }
    }

    // The view of which a node tells: by a fresh word, and as the coordinator there.
    fn offer_of(&self, node: &Neighbour) -> Option<Offer>
        ensures { result ≡ offer_of self.now node.now }
    {
        let word = self.word_of(node)?;
        let place = word.place?;
        if place.view.creator() != word.source {
            return None;
        }
        Some(Offer {
            rank: self.rank_of(&place),
            stays: place.stays,
        })
    }

    // The view of which a node tells, but for this one.
    fn other_of(&self, but: &Option<ViewId>, node: &Neighbour) -> Option<Offer>
        ensures { result ≡ other_of self.now but.now node.now }
    {
        let offer = self.offer_of(node)?;
        if is_of(but, &offer) {
            return None;
        }
        Some(offer)
    }

    // What a node tells of this view, as the coordinator there.
    fn offer_in(&self, view: ViewId, node: &Neighbour) -> Option<Offer>
        ensures { result ≡ offer_in self.now view node.now }
    {
        match self.offer_of(node) {
            Some(offer) if offer.rank.view == view => Some(offer),
            _ => None,
        }
    }

    /// The greatest view of which it is told, but for this one.
    pub fn greatest(&self, but: Option<ViewId>, nodes: &[Neighbour]) -> Option<Offer>
        ensures { IsGreatest (told self.now but nodes.now) result }
    {
        let mut best: Option<Offer> = None;
        for node in nodes {
            if let Some(offer) = self.other_of(&but, node) {
                best = Some(greater_of(best, offer));
            }
        }
        best
    }

    /// What the coordinator of a view tells of it.
    pub fn told_of(&self, view: ViewId, nodes: &[Neighbour]) -> Option<Offer>
        ensures { result ≡ told_of self.now view nodes.now }
    {
        for node in nodes {
            if let Some(offer) = self.offer_in(view, node) {
                return Some(offer);
            }
        }
        None
    }

    /// Of how many nodes fresh words say that they are in a view.
    pub fn count_in(&self, view: ViewId, nodes: &[Neighbour]) -> usize
        ensures { result ≡ count_in self.now view nodes.now }
    {
        let mut count = 0usize;
        for node in nodes {
            if self.is_there(view, node) {
                count = count.saturating_add(1);
            }
        }
        count
    }

    /// The latest history of a view of which nodes tell that say by fresh words that they are in it.
    pub fn history_in(&self, view: ViewId, nodes: &[Neighbour]) -> u64
        ensures { result ≡ history_in self.now view nodes.now }
    {
        let mut history = 0u64;
        for node in nodes {
            history = history.max(self.told_history(view, node));
        }
        history
    }

    // The history of a view of which a node tells; 0 if it does not say by a fresh word that it is there.
    fn told_history(&self, view: ViewId, node: &Neighbour) -> u64
        ensures { result ≡ told_history self.now view node.now }
    {
        match self.word_of(node) {
            Some(word) => match word.place {
                Some(place) if place.view == view => place.history,
                _ => 0,
            },
            None => 0,
        }
    }

    // Whether a node says by a fresh word that it is in a view.
    fn is_there(&self, view: ViewId, node: &Neighbour) -> bool
        ensures { result ≡ is_there self.now view node.now }
    {
        match self.word_of(node) {
            Some(word) => match word.place {
                Some(place) => place.view == view,
                None => false,
            },
            None => false,
        }
    }

    /// Whether it hears of a greater view than one of this rank, whose coordinator it does not hear: by what the nodes tell that say that they are there.
    pub fn hears_of_greater(&self, than: &Rank, nodes: &[Neighbour]) -> bool
        ensures { result ≡ list_any (is_of_greater self.now than.now nodes.now) nodes.now }
    {
        for node in nodes {
            if self.is_of_greater(than, node, nodes) {
                return true;
            }
        }
        false
    }

    // Whether a node says that it is in a view of which its coordinator does not tell, and that is greater than one of this rank.
    fn is_of_greater(&self, than: &Rank, node: &Neighbour, nodes: &[Neighbour]) -> bool
        ensures { result ≡ is_of_greater self.now than.now nodes.now node.now }
    {
        match self.word_of(node) {
            Some(word) => match word.place {
                Some(place) => self.is_greater_untold(than, place.view, nodes),
                None => false,
            },
            None => false,
        }
    }

    // Whether a view is one of which its coordinator does not tell, and greater than one of this rank.
    fn is_greater_untold(&self, than: &Rank, view: ViewId, nodes: &[Neighbour]) -> bool
        ensures { result ≡ is_greater_untold self.now than.now nodes.now view }
    {
        self.told_of(view, nodes).is_none() && self.untold_rank(view, nodes).is_greater(than)
    }

    // The rank of a view of which its coordinator does not tell: by how many say that they are there, and the latest history of which they tell.
    fn untold_rank(&self, view: ViewId, nodes: &[Neighbour]) -> Rank
        ensures { result ≡ untold_rank self.now nodes.now view }
    {
        Rank {
            history: self.counted(self.history_in(view, nodes)),
            members: self.count_in(view, nodes).min(255) as u8,
            view,
        }
    }

    /// Whether it hears somebody for whom a node that looks waits: one that is in a view, or one that looks too and has a lower address.
    pub fn hears_another(&self, nodes: &[Neighbour]) -> bool
        ensures { result ≡ list_any (is_awaited self.now) nodes.now }
    {
        for node in nodes {
            if self.is_awaited(node) {
                return true;
            }
        }
        false
    }

    // Whether a node that looks waits for another one.
    fn is_awaited(&self, node: &Neighbour) -> bool
        ensures { result ≡ is_awaited self.now node.now }
    {
        match self.word_of(node) {
            Some(word) => word.place.is_some() || word.source < self.own,
            None => false,
        }
    }
}

// Whether a view is this one.
fn is_of(but: &Option<ViewId>, offer: &Offer) -> bool
    ensures { result ≡ is_of but.now offer.now }
{
    match but {
        Some(view) => offer.rank.view == *view,
        None => false,
    }
}

// The greater of two views, if there is a first one.
fn greater_of(best: Option<Offer>, offer: Offer) -> Offer
    ensures { result ≡ greater_of best offer }
{
    match best {
        Some(best) if !offer.rank.is_greater(&best.rank) => best,
        _ => offer,
    }
}
