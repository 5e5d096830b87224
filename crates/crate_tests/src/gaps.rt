//! Gaps that close: a member that lost packets is brought level by one STATUS, one NAK and the answers.

use crate::last::Last;
use crate::two_members::{node, of_two};
use address::Bytes;
use std::alloc::Global;
use world::World;
use world_model::WorldEvent;

/// The coordinator sends so many messages, and none of its ORDERs is delivered.
fn send(alloc: Global, world: &mut World<Last>, count: u64) -> bool {
    for _ in 0..count {
        let Ok(payload) = Bytes::from_slice(alloc, b"x") else {
            return false;
        };
        if world.run(&[WorldEvent::Send(node(1), payload)]).is_err() {
            return false;
        }
    }
    true
}

#[test]
fn sixty_four_lost_messages_are_recovered(rt: HostRuntime) {
    let mut world = of_two(rt.alloc()).expect(&rt, "the events are done");
    assert!(rt; send(rt.alloc(), &mut world, 64), "they are sent");
    assert!(rt; world.packets().len() == 68, "sixty-four ORDERs are lost");
    assert!(rt;
        world.catch_up(node(2)) == Ok(true),
        "the catch-up is played"
    );
    assert!(rt;
        world.packets().len() == 198,
        "a STATUS, a NAK, 64 ORDERs, 64 ACKs"
    );
}

/// Two messages come to 2.1 by a catch-up, and both ACKs of it to the coordinator.
fn acknowledge(alloc: Global, world: &mut World<Last>) -> bool {
    let acks = [WorldEvent::Deliver(11), WorldEvent::Deliver(12)];
    send(alloc, world, 2) && world.catch_up(node(2)) == Ok(true) && world.run(&acks).is_ok()
}

#[test]
fn messages_are_stable_by_acks_and_a_status(rt: HostRuntime) {
    let mut world = of_two(rt.alloc()).expect(&rt, "the events are done");
    assert!(rt;
        acknowledge(rt.alloc(), &mut world),
        "both are acknowledged"
    );
    assert!(rt;
        world.stable(node(1)) == Some(2),
        "1.1 knows that 2.1 has them"
    );
    assert!(rt; world.stable(node(2)) == Some(0), "2.1 is told later");
    let status = [WorldEvent::Tick(node(1)), WorldEvent::Deliver(13)];
    assert!(rt; world.run(&status).is_ok(), "the STATUS is delivered");
    assert!(rt; world.stable(node(2)) == Some(2), "2.1 knows it too");
}
