//! What words tell of nodes, and when it is forgotten (docs/WIRE.md, "Words").

ghost use Rattle.std.specs.Prelude.{◌≡◌, map, IfOk};
ghost use Rattle.udp_net.specs.Neighbours.{untold, newborn, is_later, is_said_later, is_news, is_of_second, knows_second, hearing, renewed, heard, answered, answering, older, is_old, remembered, passing};
ghost use Rattle.std.specs.List.{list_any};

use crate::word::WORD_VERSION;
use crate::{FORGOTTEN, Neighbour, NodePort, Word};
use address::Node;
use std::alloc::{AllocError, Global};
use std::marker::Model;

/// For how many rounds the latest word of a node is known.
#[derive(Clone, Copy)]
pub(crate) struct Age {
    node: Node,
    rounds: u32,
}

/// What words told of each node.
pub(crate) struct Neighbours {
    told: Vec<Neighbour>,
    ages: Vec<Age>,
}

impl Drop for Neighbours {
    fn drop(self) {
        let Neighbours { told: _, ages: _ } = self;
    }
}

impl Model for Neighbours {
    ghost use Rattle.udp_net.specs.Neighbours.{NeighboursModel};

    ghost Value = { NeighboursModel };

    ghost view = { λ n. record { told = n.told.items; ages = n.ages.items } };
}

// Whether a word counts beside another one of its incarnation: it is of a later version, or of the same one and said later.
fn is_said_later(word: &Word, last: &Word) -> bool
    ensures { result ≡ is_said_later word.now last.now }
{
    let (new, old) = (word.version.number(), last.version.number());
    old < new || (old == new && last.said < word.said)
}

// Whether a word is of a later incarnation than another one of its node, or of the same one and counts beside it.
fn is_later(word: &Word, last: &Word) -> bool
    ensures { result ≡ is_later word.now last.now }
{
    let (new, old) = (word.source.incarnation(), last.source.incarnation());
    old < new || (old == new && is_said_later(word, last))
}

fn is_news(word: &Word, neighbour: &Neighbour) -> bool
    ensures { result ≡ is_news word.now neighbour.now }
{
    if neighbour.node != word.source.node() {
        return false;
    }
    match &neighbour.word {
        Some(last) => is_later(word, last),
        None => true,
    }
}

fn hearing(word: &Word, neighbour: Neighbour) -> Neighbour
    ensures { result ≡ hearing word.now neighbour }
{
    if !is_news(word, &neighbour) {
        return neighbour;
    }
    Neighbour {
        node: neighbour.node,
        word: Some(*word),
        is_asked: word.place.is_none(),
    }
}

// A word came. Answers whether it is news of some node.
fn hear_all(word: &Word, told: &mut [Neighbour]) -> bool
    ensures heard { told.new ≡ map (hearing word.now) told.old }
    ensures news { result ≡ list_any (is_news word.now) told.old }
{
    let mut is_any_news = false;
    for neighbour in told.iter_mut() {
        is_any_news |= is_news(word, neighbour);
        *neighbour = hearing(word, *neighbour);
    }
    is_any_news
}

fn renewed(node: Node, age: Age) -> Age
    ensures { result ≡ renewed node age }
{
    if age.node != node {
        return age;
    }
    Age {
        node: age.node,
        rounds: 0,
    }
}

fn renew_all(node: Node, ages: &mut [Age])
    ensures { ages.new ≡ map (renewed node) ages.old }
{
    for age in ages.iter_mut() {
        *age = renewed(node, *age);
    }
}

// Whether one of these is a node whose latest word is of version 2.
fn knows_second(node: Node, told: &[Neighbour]) -> bool
    ensures { result ≡ list_any (is_of_second node) told.now }
{
    let Some((first, rest)) = told.split_first() else {
        return false;
    };
    let is_second = match first.word {
        Some(word) => word.version.number() == WORD_VERSION,
        None => false,
    };
    (first.node == node && is_second) || knows_second(node, rest)
}

fn answer_all(node: Node, told: &mut [Neighbour])
    ensures { told.new ≡ map (answered node) told.old }
{
    for neighbour in told.iter_mut() {
        neighbour.is_asked &= neighbour.node != node;
    }
}

fn age_all(ages: &mut [Age])
    ensures { ages.new ≡ map older ages.old }
{
    for age in ages.iter_mut() {
        age.rounds = age.rounds.saturating_add(1);
    }
}

fn is_old(node: Node, ages: &[Age]) -> bool
    ensures { result ≡ is_old node ages.now }
{
    let Some((first, rest)) = ages.split_first() else {
        return false;
    };
    (first.node == node && FORGOTTEN < first.rounds) || is_old(node, rest)
}

fn remembered(ages: &[Age], neighbour: Neighbour) -> Neighbour
    ensures { result ≡ remembered ages.now neighbour }
{
    if !is_old(neighbour.node, ages) {
        return neighbour;
    }
    Neighbour {
        node: neighbour.node,
        word: None,
        is_asked: false,
    }
}

fn forget_old(ages: &[Age], told: &mut [Neighbour])
    ensures { told.new ≡ map (remembered ages.now) told.old }
{
    for neighbour in told.iter_mut() {
        *neighbour = remembered(ages, *neighbour);
    }
}

impl Neighbours {
    /// Of these nodes, of which nothing was told yet.
    pub(crate) fn new(alloc: Global, nodes: &[NodePort]) -> Result<Neighbours, AllocError>
        ensures { IfOk result (λ s. s ≡ record { told = map (λ n. untold n.node) nodes.now; ages = map (λ n. newborn n.node) nodes.now }) }
    {
        let mut told = Vec::with_capacity(alloc, nodes.len())?;
        let mut ages = Vec::with_capacity(alloc, nodes.len())?;
        for node in nodes {
            told.push(Neighbour {
                node: node.node,
                word: None,
                is_asked: false,
            })?;
            ages.push(Age {
                node: node.node,
                rounds: 0,
            })?;
        }
        Ok(Neighbours { told, ages })
    }

    /// What was told of each node.
    pub(crate) fn told(&self) -> &[Neighbour]
        ensures { result.now ≡ self.now.told }
    {
        self.told.as_slice()
    }

    /// Whether the latest word of a node is of version 2: then that node reads such words.
    pub(crate) fn knows_second(&self, node: Node) -> bool
        ensures { result ≡ knows_second node self.now }
    {
        knows_second(node, self.told.as_slice())
    }

    /// A word came from its node: it counts if it is later than the latest one of that node.
    pub(crate) fn hear(&mut self, word: &Word)
        ensures { self.new ≡ heard word.now self.old }
    {
        if hear_all(word, self.told.as_mut_slice()) {
            renew_all(word.source.node(), self.ages.as_mut_slice());
        }
    }

    /// A word is said to a node.
    pub(crate) fn answer(&mut self, node: Node)
        ensures { self.new ≡ answering node self.old }
    {
        answer_all(node, self.told.as_mut_slice());
    }

    /// A round is over.
    pub(crate) fn pass(&mut self)
        ensures { self.new ≡ passing self.old }
    {
        age_all(self.ages.as_mut_slice());
        forget_old(self.ages.as_slice(), self.told.as_mut_slice());
    }
}
