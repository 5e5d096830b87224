//! How often a receiver is given a view, and called because its member is blocked: once at each install, and once at each block.

use crate::last::Last;
use crate::two_members::{node, of_two};
use address::Address;
use world::World;
use world_model::WorldEvent;

/// 3.1 asks to be let in, and the FLUSH of the view of all three comes to 2.1 twice.
fn flush_twice(world: &mut World<Last>) -> bool {
    let events = [
        WorldEvent::Start(node(3)),
        WorldEvent::Join(node(3), Address::first_at(node(1))),
        WorldEvent::Deliver(5),
        WorldEvent::Deliver(6),
        WorldEvent::Deliver(6),
    ];
    world.run(&events).is_ok()
}

/// How many views the receiver of a node was given, and how often it was called because its member is blocked.
fn calls_at(world: &World<Last>, number: u16) -> Option<(usize, usize)> {
    let receiver = world.receiver(node(number))?;
    Some((receiver.installs, receiver.blocks))
}

#[test]
fn a_receiver_is_told_of_each_view_and_each_block_once(rt: HostRuntime) {
    let mut world = of_two(rt.alloc()).expect(&rt, "the events are done");
    assert!(rt;
        calls_at(&world, 1) == Some((2, 1)),
        "the coordinator is given two views, and is blocked once"
    );
    assert!(rt;
        calls_at(&world, 2) == Some((1, 0)),
        "the newcomer is given one view"
    );
    assert!(rt; flush_twice(&mut world), "the events are done");
    assert!(rt;
        calls_at(&world, 2) == Some((1, 1)),
        "it is blocked once by a FLUSH that comes twice"
    );
}
