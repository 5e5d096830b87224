//! What services tell the one for whom the ticket 70 was noted, whose message is the first of node 1's first view.

use crate::fixtures::{first_at, first_view, token};
use address::Bytes;
use application::{Waiting, take_ticket};
use lock_table::LockService;
use replicated_map::{MapService, Outcome};
use std::alloc::{AllocError, Global};
use trace_props::{BoxedInstall, Delivery, Event, HandedBack, Install, Message};
use view::{Addresses, View};

// By hand from the tables of docs/RECEIVERS.md: put `xy` for `a`, and acquire `a`.
const PUT_A: &[u8] = b"\x01\0\0\0\0\0\0\0\x01\0\x01\0\0\0\x01\x01a\0\x02xy";

const ACQUIRE_A: &[u8] = b"\x01\0\0\0\0\0\0\0\x01\0\x01\0\0\0\x01\x01a";

// Node 1 installs its first view.
fn install(alloc: Global) -> Result<Event, AllocError> {
    let install = Install {
        member: first_at(1),
        previous: None,
        view: View::alone(alloc, first_view())?,
        together: Addresses::alone(alloc, first_at(1))?,
        handed_back: HandedBack::nothing(alloc),
        given: None,
    };
    Ok(Event::Installed(BoxedInstall::new(alloc, install)?))
}

// Node 1 delivers its own first message.
fn delivery(alloc: Global, payload: &[u8]) -> Result<Event, AllocError> {
    Ok(Event::Delivered(Delivery {
        member: first_at(1),
        view: first_view(),
        message: Message {
            sender: first_at(1),
            number: 1,
            payload: Bytes::from_slice(alloc, payload)?,
        },
    }))
}

// The service of a map hears of a put.
fn put(alloc: Global, service: &mut MapService) -> Result<(), AllocError> {
    service.hear(&install(alloc)?)?;
    service.note(1, 70)?;
    service.hear(&delivery(alloc, PUT_A)?)
}

#[test]
fn a_write_is_answered_at_its_place(rt: HostRuntime) {
    replicated_map::follows();
    replicated_map::answers();
    replicated_map::forgets_nobody();
    let mut service = MapService::new(rt.alloc(), first_at(1))
        .ok()
        .expect(&rt, "a service");
    assert!(rt; put(rt.alloc(), &mut service).is_ok(), "there is memory");
    assert!(rt;
        service.view() == Some(first_view()) && service.place() == 1,
        "its place"
    );
    let answers = service.take_answers();
    assert_eq!(rt; answers.len(), 1);
    assert!(rt; answers[0].ticket == 70, "the ticket");
    match &answers[0].fate {
        replicated_map::Fate::Delivered(view, place, Outcome::Stored(version)) => assert!(rt;
            *view == first_view() && *place == 1 && *version == token(1),
            "what became of it"
        ),
        _ => assert!(rt; false, "it was stored"),
    }
}

// The service of a table of locks hears of an acquire.
fn acquire(alloc: Global, service: &mut LockService) -> Result<(), AllocError> {
    service.hear(&install(alloc)?)?;
    service.note(1, 70)?;
    service.hear(&delivery(alloc, ACQUIRE_A)?)
}

#[test]
fn a_free_lock_is_granted_at_its_place(rt: HostRuntime) {
    lock_table::follows();
    lock_table::grants();
    lock_table::misses_no_grant();
    lock_table::forgets_nobody();
    let mut service = LockService::new(rt.alloc(), first_at(1))
        .ok()
        .expect(&rt, "a service");
    assert!(rt;
        acquire(rt.alloc(), &mut service).is_ok(),
        "there is memory"
    );
    assert!(rt;
        service.view() == Some(first_view()) && service.place() == 1,
        "its place"
    );
    let answers = service.take_answers();
    assert_eq!(rt; answers.len(), 1);
    assert!(rt;
        answers[0].ticket == 70 && answers[0].place == 1,
        "the ticket"
    );
    match &answers[0].fate {
        lock_table::Fate::Granted(granted) => assert!(rt; *granted == token(1), "its token"),
        _ => assert!(rt; false, "it is granted"),
    }
}

#[test]
fn a_ticket_is_taken_once(rt: HostRuntime) {
    let mut waiting = Vec::new(rt.alloc());
    let waits = Waiting {
        number: 1,
        ticket: 70,
    };
    assert!(rt; waiting.push(waits).is_ok(), "there is memory");
    assert!(rt; take_ticket(&mut waiting, 1) == Some(70), "it is taken");
    assert!(rt; take_ticket(&mut waiting, 1).is_none(), "it is gone");
}
