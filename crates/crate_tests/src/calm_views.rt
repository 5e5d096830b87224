//! Calm views: `World::deliver_all` delivers everything that was sent in a view to all its members, exactly if all of them are open in it
//! (docs/GUARANTEES.md, "A calm view delivers"). The counts come from the trace alone.

ghost use Rattle.std.specs.Prelude.{◌≡◌, true, is_some};
ghost use Rattle.std.specs.Option.{ForSome};
ghost use Rattle.world.specs.Worlds.{shown};
ghost use Rattle.world.specs.Calm.{calm_at, IsThrough};

use crate::last::Last;
use crate::random_worlds::{Random, begin, go_on};
use crate::two_members::{node, of_two};
use address::limits::{MEMBERS, OUTSTANDING, Refusal, WINDOW};
use address::{Address, Bytes, Node, ViewId};
use std::alloc::Global;
use trace_props::Event;
use world::World;
use world_model::{Answer, WorldEvent};

/// How many random worlds are made.
const WORLDS: u64 = 300;

/// Delivers everything that was sent in the view of the member at a node. If it answers true, the premises of `world::calm_views_deliver` were met before (`met`),
/// and its end is reached (`through`): so the worlds of these tests are stories of that law.
fn delivers_at(world: &mut World<Last>, at: Node) -> bool
    ensures met { result ≡ true → is_some (calm_at (shown world.old).node_states at) ≡ true }
    ensures through { result ≡ true → ForSome (calm_at (shown world.old).node_states at) (λ v. IsThrough v (shown world.new)) }
{
    match world.deliver_all(at) {
        Ok(answer) => answer,
        Err(_) => false,
    }
}

/// The member at a node sends so many messages, of which no packet is delivered.
fn send(alloc: Global, world: &mut World<Last>, at: Node, count: u64) -> bool {
    for _ in 0..count {
        let Ok(payload) = Bytes::from_slice(alloc, b"x") else {
            return false;
        };
        if world.run(&[WorldEvent::Send(at, payload)]).is_err() {
            return false;
        }
    }
    true
}

/// The view of a member, and whether it is blocked there, by the trace.
fn view_of(world: &World<Last>, member: Address) -> Option<(ViewId, bool)> {
    let mut found = None;
    for event in world.trace().events() {
        match event {
            Event::Installed(boxed) => {
                let install = boxed.get();
                if install.member == member {
                    found = Some((install.view.id(), false));
                }
            }
            Event::Blocked(blocked) => {
                if *blocked == member
                    && let Some((view, _)) = found
                {
                    found = Some((view, true));
                }
            }
            _ => {}
        }
    }
    found
}

/// Whether a member runs in a view and is not blocked.
fn is_open_in(world: &World<Last>, member: Address, view: ViewId) -> bool {
    world.running(member.node()) == Some(member) && view_of(world, member) == Some((view, false))
}

/// How many messages were sent in a view, and how many of them a member has delivered.
fn counts(world: &World<Last>, member: Address, view: ViewId) -> (u64, u64) {
    let mut sent: u64 = 0;
    let mut delivered: u64 = 0;
    for event in world.trace().events() {
        match event {
            Event::Sent(sending) => {
                if sending.view == view {
                    sent = sent.wrapping_add(1);
                }
            }
            Event::Delivered(delivery) => {
                if delivery.member == member && delivery.view == view {
                    delivered = delivered.wrapping_add(1);
                }
            }
            _ => {}
        }
    }
    (sent, delivered)
}

/// The members of a view, as its creator installed it: whether all of them are open in it, and whether each of them has delivered everything that was sent there
/// and knows it to be stable.
fn all_members(world: &World<Last>, view: ViewId) -> Option<(bool, bool)> {
    let mut open = true;
    let mut through = true;
    for event in world.trace().events() {
        if let Event::Installed(boxed) = event {
            let install = boxed.get();
            if install.view.id() == view && install.member == view.creator() {
                for member in install.view.members().as_slice() {
                    let (sent, delivered) = counts(world, *member, view);
                    open = open && is_open_in(world, *member, view);
                    through = through
                        && delivered == sent
                        && world.stable(member.node()) == Some(sent);
                }
                return Some((open, through));
            }
        }
    }
    None
}

#[test]
fn lost_messages_are_delivered_to_both(rt: HostRuntime) {
    let mut world = of_two(rt.alloc()).expect(&rt, "the events are done");
    let view = ViewId::new(2, Address::first_at(node(1))).expect(&rt, "it is an id");
    assert!(rt;
        send(rt.alloc(), &mut world, node(1), 3) && send(rt.alloc(), &mut world, node(2), 5),
        "they are sent"
    );
    assert!(rt;
        all_members(&world, view) == Some((true, false)),
        "both are open, and not all is delivered"
    );
    assert!(rt; delivers_at(&mut world, node(2)), "the view is calm");
    assert!(rt;
        all_members(&world, view) == Some((true, true)),
        "both delivered all eight, and know them to be stable"
    );
    assert!(rt;
        counts(&world, Address::first_at(node(2)), view) == (8, 8),
        "they are eight"
    );
    assert!(rt;
        !delivers_at(&mut world, node(3)),
        "nobody runs at the third node"
    );
}

/// A world of sixteen members in one view.
fn of_sixteen(alloc: Global) -> Option<World<Last>> {
    let mut world = World::<Last>::new(alloc);
    world
        .run(&[WorldEvent::Start(node(1)), WorldEvent::Create(node(1))])
        .ok()?;
    for before in 1..MEMBERS as u16 {
        let at = node(before.wrapping_add(1));
        world.run(&[WorldEvent::Start(at)]).ok()?;
        world
            .run(&[WorldEvent::Join(at, Address::first_at(node(1)))])
            .ok()?;
        let join = world.packets().len() as u64;
        world.run(&[WorldEvent::Deliver(join)]).ok()?;
        world.settle(node(1)).ok()?;
    }
    Some(world)
}

/// The coordinator orders a window of messages, and each member sends until it is refused.
fn fill(alloc: Global, world: &mut World<Last>) -> bool {
    if !send(alloc, world, node(1), WINDOW) {
        return false;
    }
    for before in 0..MEMBERS as u16 {
        let at = node(before.wrapping_add(1));
        if !send(alloc, world, at, OUTSTANDING.wrapping_add(1)) {
            return false;
        }
        match world.replies().last() {
            Some(reply) => {
                if reply.answer != Answer::Refused(Refusal::Busy) {
                    return false;
                }
            }
            None => return false,
        }
    }
    true
}

#[test]
fn sixteen_members_deliver_a_full_window_and_all_that_is_outstanding(rt: HostRuntime) {
    let mut world = of_sixteen(rt.alloc()).expect(&rt, "the members come together");
    let (view, _) = view_of(&world, Address::first_at(node(16))).expect(&rt, "it has a view");
    assert!(rt;
        fill(rt.alloc(), &mut world),
        "a window is ordered, and each member has eight messages outstanding"
    );
    assert!(rt;
        counts(&world, Address::first_at(node(1)), view) == (192, 64),
        "128 are outstanding"
    );
    let events = world.events().len();
    assert!(rt; delivers_at(&mut world, node(9)), "the view is calm");
    assert!(rt;
        all_members(&world, view) == Some((true, true)),
        "all delivered all, and know it to be stable"
    );
    let played = world.events().len().wrapping_sub(events);
    assert!(rt; played <= 4928, "by at most 4,928 events");
}

/// How many deliveries were done, how many of them had something to deliver, and how many were not.
#[derive(Clone, Copy)]
struct Tally {
    done: u64,
    needed: u64,
    refused: u64,
}

impl Tally {
    /// Whether everything is delivered at a node exactly if all members of the view there are open in it.
    fn delivers_if_all_are_open(&mut self, world: &mut World<Last>, at: Node) -> bool {
        let mut wanted = None;
        if let Some(member) = world.running(at)
            && let Some((view, _)) = view_of(world, member)
        {
            wanted = Some(view);
        }
        let before = match wanted {
            None => None,
            Some(view) => all_members(world, view),
        };
        let Ok(answer) = world.deliver_all(at) else {
            return false;
        };
        if !answer {
            self.refused = self.refused.wrapping_add(1);
            return match before {
                None => true,
                Some((open, _)) => !open,
            };
        }
        self.done = self.done.wrapping_add(1);
        if before == Some((true, false)) {
            self.needed = self.needed.wrapping_add(1);
        }
        match wanted {
            None => false,
            Some(view) => all_members(world, view) == Some((true, true)),
        }
    }
}

/// Two members, and then all, send in the midst of random events; everything is delivered at each node where that can be.
fn delivers(
    alloc: Global,
    world: &mut World<Last>,
    random: &mut Random,
    tally: &mut Tally,
) -> bool {
    if !begin(world, random) {
        return false;
    }
    for _ in 0..4 {
        let settled = go_on(world, random) && world.settle(random.node()).is_ok();
        let sent = send(alloc, world, random.node(), 3) && send(alloc, world, random.node(), 9);
        if !(settled && sent && go_on(world, random)) {
            return false;
        }
        if !tally.delivers_if_all_are_open(world, random.node()) {
            return false;
        }
    }
    true
}

#[test]
fn everything_is_delivered_exactly_where_all_are_open(rt: HostRuntime) {
    let mut random = Random { state: 2027 };
    let mut tally = Tally {
        done: 0,
        needed: 0,
        refused: 0,
    };
    for _ in 0..WORLDS {
        let mut world = World::<Last>::new(rt.alloc());
        assert!(rt;
            delivers(rt.alloc(), &mut world, &mut random, &mut tally),
            "everything is delivered exactly if all members are open"
        );
    }
    assert!(rt; tally.done > 100, "many views delivered");
    assert!(rt; tally.needed > 50, "many of them had lost something");
    assert!(rt; tally.refused > 100, "many were not calm");
}
