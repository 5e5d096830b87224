use crate::fixtures::first_at;
use address::Bytes;
use std::alloc::{AllocError, Global};
use trace_props::{Event, HandedBack, Numbered, Trace};

// What each rule refuses and what it lets pass is tested as text, by the files `tests/data/check-*.txt`.

/// The trace of one start.
fn started(alloc: Global) -> Result<Trace, AllocError> {
    let mut trace = Trace::new(alloc);
    trace.reserve(1)?;
    trace.record(Event::Started(first_at(1)));
    Ok(trace)
}

/// Whether what happened is that start.
fn is_started(events: &[Event]) -> bool {
    match events {
        [Event::Started(member)] => *member == first_at(1),
        _ => false,
    }
}

/// One message handed back, whose payload is a copy.
fn one_back(alloc: Global) -> Result<HandedBack, AllocError> {
    let payload = Bytes::from_slice(alloc, b"hi")?.copied(alloc)?;
    let mut messages = Vec::new(alloc);
    messages.push(Numbered { number: 4, payload })?;
    Ok(HandedBack::from_vec(messages))
}

#[test]
fn what_happened_is_recorded(rt: HostRuntime) {
    let trace = started(rt.alloc()).ok().expect(&rt, "a trace");
    assert!(rt; is_started(trace.events()), "a start");
    let nothing = HandedBack::nothing(rt.alloc());
    assert!(rt; nothing.as_slice().is_empty(), "nothing handed back");
    let back = one_back(rt.alloc()).ok().expect(&rt, "a message");
    let messages = back.as_slice();
    assert_eq!(rt; messages.len(), 1, "how many messages there are");
    assert_eq!(rt; messages[0].number, 4, "the number");
    let payload = messages[0].payload.as_slice();
    assert!(rt; payload == b"hi".as_slice(), "the payload");
}
