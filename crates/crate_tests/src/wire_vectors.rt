use crate::fixtures::address;
use crate::wire_samples::{
    EACH, FLUSH, INSTALL_IN_CHUNKS, INSTALL_WITH_STATE, JOIN, ORDER, REPORT_OF_NONE, STATE,
    is_exact, is_spelled, second_view, unhex,
};
use address::Address;
use std::alloc::Global;
use wire_values::{
    Body, Chunk, Count, Entry, GivenState, GroupName, Install, Items, Members, Number, Packet,
    Payload, Report, Roster, State, Total,
};

/// Whether a packet of the group `world` from one address to another is written as a text says in hexadecimal.
fn is_written(
    alloc: Global,
    source: Address,
    destination: Address,
    body: Body<'_>,
    text: &[u8],
) -> bool {
    match (GroupName::new(b"world"), unhex(alloc, text)) {
        (Some(group), Ok(bytes)) => {
            let packet = Packet {
                group,
                source,
                destination,
                body,
            };
            is_spelled(alloc, &packet, &bytes)
        }
        _ => false,
    }
}

/// The second view with 1.1 and 2.1.
fn of_two() -> Option<Roster> {
    Roster::new(second_view(), &[address(1, 1), address(2, 1)])
}

/// The install of that view at 2.1, alone with itself, with a state.
fn install(given: GivenState<'static>) -> Option<Body<'static>> {
    let together = Members::from_slice(&[address(2, 1)])?;
    let install = Install::new(of_two()?, together, Count::zero(), Items::none(), given)?;
    Some(Body::Install(install))
}

/// The second chunk of a state of 32,769 bytes: a seven.
fn state() -> Option<Body<'static>> {
    Some(Body::State {
        proposal: second_view(),
        chunk: Chunk::new(Total::new(32_769)?, 2, b"\x07")?,
    })
}

/// The first entry of 1.1 at the first place of the second view: an `a`.
fn order() -> Option<Body<'static>> {
    let number = Number::new(1)?;
    let entry = Entry {
        sender: address(1, 1),
        number,
        payload: Payload::new(b"a")?,
    };
    Some(Body::Order {
        view: second_view(),
        place: number,
        entry,
    })
}

#[test]
fn joins_reports_and_orders_are_written(rt: HostRuntime) {
    let alloc = rt.alloc();
    let (one, two) = (address(1, 1), address(2, 1));
    assert!(rt; is_written(alloc, two, one, Body::Join, JOIN), "the JOIN");
    let body = Body::Report {
        proposal: second_view(),
        report: Report::nothing(),
    };
    assert!(rt;
        is_written(alloc, two, one, body, REPORT_OF_NONE),
        "the REPORT of nothing"
    );
    let body = order().expect(&rt, "the order");
    assert!(rt; is_written(alloc, one, two, body, ORDER), "the ORDER");
}

#[test]
fn views_and_states_are_written(rt: HostRuntime) {
    let alloc = rt.alloc();
    let (one, two) = (address(1, 1), address(2, 1));
    let body = Body::Flush(of_two().expect(&rt, "a view"));
    assert!(rt; is_written(alloc, one, two, body, FLUSH), "the FLUSH");
    let zero = State::new(b"\x00").expect(&rt, "a state");
    let body = install(GivenState::Whole(zero)).expect(&rt, "whole");
    assert!(rt;
        is_written(alloc, one, two, body, INSTALL_WITH_STATE),
        "a whole state"
    );
    let total = Total::new(1_048_576).expect(&rt, "a total");
    let body = install(GivenState::Chunked(total)).expect(&rt, "cut");
    assert!(rt;
        is_written(alloc, one, two, body, INSTALL_IN_CHUNKS),
        "a state in chunks"
    );
    let body = state().expect(&rt, "the chunk");
    assert!(rt; is_written(alloc, one, two, body, STATE), "the STATE");
}

/// Whether a text is a packet of a kind, and is written back.
fn is_of_kind(alloc: Global, text: &[u8], kind: u8) -> bool {
    match unhex(alloc, text) {
        Ok(bytes) => is_exact(alloc, &bytes, kind),
        Err(_) => false,
    }
}

// The texts stand in the order of their kinds, which begin at 1.
#[test]
fn each_kind_is_read_and_written_back(rt: HostRuntime) {
    let alloc = rt.alloc();
    let mut kind = 0u8;
    for text in EACH {
        kind = kind.saturating_add(1);
        assert!(rt; is_of_kind(alloc, text, kind), "the kind {kind}");
    }
    assert!(rt; is_of_kind(alloc, REPORT_OF_NONE, 11), "of nothing");
    assert!(rt; is_of_kind(alloc, INSTALL_WITH_STATE, 12), "whole");
    assert!(rt; is_of_kind(alloc, INSTALL_IN_CHUNKS, 12), "in chunks");
}
