//! One step of a world by itself (docs/GUARANTEES.md, "The world").

use crate::last::Last;
use crate::two_members::node;
use address::limits::STEP_EVENTS;
use address::{Address, Node};
use std::alloc::{AllocError, Global};
use std::collections::BTreeMap;
use trace_props::Trace;
use world::{NodeState, Pool, carry};
use world_model::{Answer, WorldEvent};

/// What stands at the nodes, what happened and what was put out.
#[derive(Drop)]
struct Parts {
    nodes: BTreeMap<Node, NodeState<Last>>,
    trace: Trace,
    pool: Pool,
}

impl Parts {
    /// Makes room for the events of a step, and carries out one.
    fn carry(&mut self, alloc: Global, event: &WorldEvent) -> Result<Answer, AllocError> {
        self.trace.reserve(STEP_EVENTS)?;
        carry(
            alloc,
            &mut self.nodes,
            &mut self.trace,
            &mut self.pool,
            event,
        )
    }
}

#[test]
fn a_step_records_and_puts_out(rt: HostRuntime) {
    let alloc = rt.alloc();
    let mut parts = Parts {
        nodes: BTreeMap::new(alloc),
        trace: Trace::new(alloc),
        pool: Pool::new(alloc),
    };
    let contact = Address::first_at(node(2));
    let started = parts.carry(alloc, &WorldEvent::Start(node(1)));
    assert!(rt; started == Ok(Answer::Done), "the node starts");
    assert!(rt; parts.trace.events().len() == 1, "its start is recorded");
    assert!(rt; parts.pool.count() == 0, "nothing is put out");
    let joined = parts.carry(alloc, &WorldEvent::Join(node(1), contact));
    assert!(rt; joined == Ok(Answer::Done), "it asks to join");
    assert!(rt;
        parts.pool.packets().len() == 1 && parts.pool.packet(1).is_some(),
        "its JOIN is the packet 1"
    );
    assert!(rt; parts.pool.destination(1) == Some(contact), "for 2.1");
    assert!(rt;
        parts.pool.first_for(contact, 0) == Some(1),
        "the first for 2.1"
    );
    assert!(rt; parts.pool.first_for(contact, 1).is_none(), "and the last");
}
