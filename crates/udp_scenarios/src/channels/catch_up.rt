//! Brings a member level that lost two messages, and answers a number of what came of it.

use address::{Address, Bytes, Node};
use chat_log::ChatLog;
use std::alloc::{AllocError, Global};
use trace_props::Event;
use world::World;
use world_model::WorldEvent;

/// The member was brought level.
pub const LEVEL: u8 = 0;

/// Something else came of it than `World::catch_up` promises.
const WRONG: u8 = 1;

/// Memory was refused before the catch-up began.
const NOT_BEGUN: u8 = 2;

/// Memory was refused in a step: the last that happened is that the coordinator crashed, and the other runs.
const COORDINATOR_CRASHED: u8 = 3;

/// Memory was refused before a step was begun: both run, and a second catch-up brings the member level.
const BETWEEN_STEPS: u8 = 4;

/// Memory was refused in a step: the last that happened is that the other crashed, and the coordinator runs.
const OTHER_CRASHED: u8 = 5;

/// A node's number as a node.
fn node(number: u16) -> Node {
    Node::new(number).unwrap_or(Node::new(1).unwrap())
}

/// A world of 1.1 and 2.1 in the view 2@1.1.
fn of_two(alloc: Global) -> Result<World<ChatLog>, AllocError> {
    let mut world = World::<ChatLog>::new(alloc);
    let events = [
        WorldEvent::Start(node(1)),
        WorldEvent::Create(node(1)),
        WorldEvent::Start(node(2)),
        WorldEvent::Join(node(2), Address::first_at(node(1))),
        WorldEvent::Deliver(1),
        WorldEvent::Deliver(2),
        WorldEvent::Deliver(3),
        WorldEvent::Deliver(4),
    ];
    world.run(&events)?;
    Ok(world)
}

/// The same after two messages of 1.1 that 2.1 lost; and after deliveries of a packet that is not there, so many that the places of events are used up amid the
/// catch-up.
fn behind(alloc: Global) -> Result<World<ChatLog>, AllocError> {
    let one = Bytes::from_slice(alloc, b"a")?;
    let other = Bytes::from_slice(alloc, b"b")?;
    let mut world = of_two(alloc)?;
    let sends = [
        WorldEvent::Send(node(1), one),
        WorldEvent::Send(node(1), other),
        WorldEvent::Deliver(99),
        WorldEvent::Deliver(99),
        WorldEvent::Deliver(99),
        WorldEvent::Deliver(99),
    ];
    world.run(&sends)?;
    Ok(world)
}

/// How many messages were delivered to the member of a node.
fn delivered(world: &World<ChatLog>, number: u16) -> usize {
    let mut count: usize = 0;
    for event in world.trace().events() {
        if let Event::Delivered(delivery) = event {
            if delivery.member.node() == node(number) {
                count = count.wrapping_add(1);
            }
        }
    }
    count
}

/// Whether both were delivered both messages.
fn is_level(world: &World<ChatLog>) -> bool {
    delivered(world, 1) == 2 && delivered(world, 2) == 2
}

/// Whether a member runs at a node.
fn runs(world: &World<ChatLog>, number: u16) -> bool {
    world.receiver(node(number)).is_some()
}

/// Whether both run, and only the two ORDERs were lost.
fn is_behind(world: &World<ChatLog>) -> bool {
    let both = runs(world, 1) && runs(world, 2);
    both && world.packets().len() == 6 && delivered(world, 1) == 2 && delivered(world, 2) == 0
}

/// That the member of a node crashed, which is the last that happened.
fn after_crash(world: &World<ChatLog>, number: u16, crashed: u8) -> u8 {
    match world.trace().events().last() {
        Some(Event::Crashed(member)) if member.node() == node(number) => crashed,
        _ => WRONG,
    }
}

/// What came of a catch-up for which memory was refused.
fn after_refusal(world: &mut World<ChatLog>) -> u8 {
    match (runs(world, 1), runs(world, 2)) {
        (true, true) => {
            if world.catch_up(node(2)) == Ok(true) && is_level(world) {
                BETWEEN_STEPS
            } else {
                WRONG
            }
        }
        (false, true) => after_crash(world, 1, COORDINATOR_CRASHED),
        (true, false) => after_crash(world, 2, OTHER_CRASHED),
        (false, false) => WRONG,
    }
}

/// What came of the catch-up.
fn outcome(world: &mut World<ChatLog>) -> u8 {
    match world.catch_up(node(2)) {
        Ok(played) => {
            if played && is_level(world) {
                LEVEL
            } else {
                WRONG
            }
        }
        Err(_) => after_refusal(world),
    }
}

/// What came of the catch-up of a member that is behind.
pub fn caught_up(alloc: Global) -> u8 {
    match behind(alloc) {
        Ok(mut world) if is_behind(&world) => outcome(&mut world),
        _ => NOT_BEGUN,
    }
}
