//! Random worlds: where `World::settle` does nothing, the same events by hand complete no change of view either (docs/GUARANTEES.md, "Views settle").

use crate::last::Last;
use crate::two_members::node;
use address::{Address, Node, ViewId};
use law_dead_ends::nothing_is_a_dead_end;
use trace_props::{Event, Install};
use world::{World, low_proposals_rise};
use world_model::WorldEvent;

/// How many worlds are made.
const WORLDS: u64 = 300;

/// How often some random events happen in it, and then a settling at a random node.
const ROUNDS: u64 = 8;

/// How many random events these are.
const EVENTS: u64 = 8;

/// How many nodes it has.
const NODES: u16 = 4;

/// Numbers that look random: Knuth's linear congruential generator, its upper bits.
#[derive(Clone, Copy)]
pub(crate) struct Random {
    pub(crate) state: u64,
}

impl Random {
    /// A number below a bound; 0 if the bound is 0.
    fn below(&mut self, bound: u64) -> u64 {
        self.state = self
            .state
            .wrapping_mul(6364136223846793005)
            .wrapping_add(1442695040888963407);
        (self.state >> 33).checked_rem(bound).unwrap_or(0)
    }

    /// One of the nodes.
    pub(crate) fn node(&mut self) -> Node {
        match self.below(4) {
            0 => node(1),
            1 => node(2),
            2 => node(3),
            _ => node(4),
        }
    }
}

/// A random event: mostly a delivery of one of the last packets.
fn random_event(random: &mut Random, world: &World<Last>) -> WorldEvent {
    let at = random.node();
    let other = random.node();
    let address = world.running(other).unwrap_or(Address::first_at(other));
    match random.below(100) {
        0..=3 => WorldEvent::Start(at),
        4..=7 => WorldEvent::Create(at),
        8..=15 => WorldEvent::Join(at, address),
        16..=21 => WorldEvent::Tick(at),
        22..=26 => WorldEvent::Suspect(at, address),
        27..=33 => WorldEvent::MergeHint(at, address),
        34..=35 => WorldEvent::Crash(at),
        _ => {
            let packets = world.packets().len() as u64;
            WorldEvent::Deliver(packets.saturating_sub(random.below(packets.min(12))))
        }
    }
}

/// The last view that the member that runs at a node installed.
fn last_install<'a>(world: &'a World<Last>, at: Node) -> Option<&'a Install> {
    let member = world.running(at)?;
    let mut last = None;
    for event in world.trace().events() {
        if let Event::Installed(boxed) = event {
            let install = boxed.get();
            if install.member == member {
                last = Some(install);
            }
        }
    }
    last
}

/// The view that the member at a node made, if all of its members are in it.
fn shared_view(world: &World<Last>, at: Node) -> Option<ViewId> {
    let install = last_install(world, at)?;
    let view = install.view.id();
    if view.creator() != install.member {
        return None;
    }
    for member in install.view.members().as_slice() {
        let other = last_install(world, member.node())?;
        if other.member != *member || other.view.id() != view {
            return None;
        }
    }
    Some(view)
}

/// Delivers each packet past so many that is there now.
fn deliver_past(world: &mut World<Last>, past: usize) -> bool {
    let last = world.packets().len();
    for index in past..last {
        let number = (index as u64).wrapping_add(1);
        if world.run(&[WorldEvent::Deliver(number)]).is_err() {
            return false;
        }
    }
    true
}

/// Whether a tick of the member at a node, and the deliveries of what comes of it, bring all members of a new view that it made into that view.
fn comes_by_hand(world: &mut World<Last>, at: Node) -> bool {
    let before = match last_install(world, at) {
        None => None,
        Some(install) => Some(install.view.id()),
    };
    let mut known = world.packets().len();
    if world.run(&[WorldEvent::Tick(at)]).is_err() {
        return false;
    }
    // Each FLUSH, then each REPORT, then each STATE and INSTALL.
    for _ in 0..3 {
        let past = known;
        known = world.packets().len();
        if !deliver_past(world, past) {
            return false;
        }
    }
    let view = shared_view(world, at);
    view.is_some() && view != before
}

/// Whether the member at a node is in a view that others of it are not in, and a tick of each of them, and the deliveries of the last packet that it sends
/// and of what comes of that, bring all of them into it.
fn comes_by_reports(world: &mut World<Last>, at: Node) -> bool {
    if shared_view(world, at).is_some() {
        return false;
    }
    for number in 1..=NODES {
        let other = node(number);
        if other != at {
            let ticked = world.run(&[WorldEvent::Tick(other)]).is_ok();
            let asked = world.packets().len();
            let answered = world.run(&[WorldEvent::Deliver(asked as u64)]).is_ok();
            if !(ticked && answered && deliver_past(world, asked)) {
                return false;
            }
        }
    }
    shared_view(world, at).is_some()
}

/// How many settlings completed a change, and how many did nothing.
#[derive(Clone, Copy)]
struct Tally {
    settled: u64,
    rested: u64,
}

impl Tally {
    /// Settles at a node. Where that does nothing, one of the two ways by hand does not either: in turn, as what the one leaves may complete by the other.
    fn settles_if_it_can(&mut self, world: &mut World<Last>, at: Node) -> bool {
        match world.settle(at) {
            Err(_) => false,
            Ok(true) => {
                self.settled = self.settled.wrapping_add(1);
                true
            }
            Ok(false) => {
                self.rested = self.rested.wrapping_add(1);
                if world.events().len() % 2 == 0 {
                    !comes_by_reports(world, at)
                } else {
                    !comes_by_hand(world, at)
                }
            }
        }
    }
}

/// Some random events.
pub(crate) fn go_on(world: &mut World<Last>, random: &mut Random) -> bool {
    for _ in 0..EVENTS {
        let event = random_event(random, world);
        if world.run(&[event]).is_err() {
            return false;
        }
    }
    true
}

/// Starts a member at each node, two of which create views.
pub(crate) fn begin(world: &mut World<Last>, random: &mut Random) -> bool {
    let events = [
        WorldEvent::Start(node(1)),
        WorldEvent::Start(node(2)),
        WorldEvent::Start(node(3)),
        WorldEvent::Start(node(4)),
        WorldEvent::Create(random.node()),
        WorldEvent::Create(random.node()),
    ];
    world.run(&events).is_ok()
}

/// Begins, and goes on; whether all changes settle that can.
fn settles(world: &mut World<Last>, random: &mut Random, tally: &mut Tally) -> bool {
    if !begin(world, random) {
        return false;
    }
    for _ in 0..ROUNDS {
        if !(go_on(world, random) && tally.settles_if_it_can(world, random.node())) {
            return false;
        }
    }
    for number in 1..=NODES {
        if !tally.settles_if_it_can(world, node(number)) {
            return false;
        }
    }
    true
}

#[test]
fn a_change_of_view_settles_exactly_if_it_can(rt: HostRuntime) {
    let mut random = Random { state: 2026 };
    let mut tally = Tally {
        settled: 0,
        rested: 0,
    };
    for _ in 0..WORLDS {
        let mut world = World::<Last>::new(rt.alloc());
        assert!(rt;
            settles(&mut world, &mut random, &mut tally),
            "a change settles exactly if it can"
        );
    }
    assert!(rt; tally.settled > 80, "many changes settled");
    assert!(rt; tally.rested > 1000, "more did not");
    nothing_is_a_dead_end::<Last>();
    low_proposals_rise::<Last>();
}
