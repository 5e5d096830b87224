use crate::last::Last;
use address::{Address, Node};
use std::alloc::Global;
use world::World;
use world_model::WorldEvent;

/// A node's number as a node.
pub fn node(number: u16) -> Node {
    Node::new(number).unwrap_or(Node::new(1).unwrap())
}

/// A world of 1.1 and 2.1 in the view 2@1.1, with four packets put out.
pub fn of_two(alloc: Global) -> Option<World<Last>> {
    let events = [
        WorldEvent::Start(node(1)),
        WorldEvent::Create(node(1)),
        WorldEvent::Start(node(2)),
        WorldEvent::Join(node(2), Address::first_at(node(1))),
        WorldEvent::Deliver(1),
        WorldEvent::Deliver(2),
        WorldEvent::Deliver(3),
        WorldEvent::Deliver(4),
    ];
    let mut world = World::<Last>::new(alloc);
    world.run(&events).ok()?;
    Some(world)
}
