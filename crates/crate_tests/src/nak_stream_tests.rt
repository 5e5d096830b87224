use crate::fixtures::first_at;
use address::Bytes;
use nak_stream::{Entry, OwnedPayload, Window, beginnings_agree, windows_agree};
use wire_values::{Entry as LentEntry, Number, Payload};

/// The entry of 1.1 with a number and a payload, as packets lend it.
fn lent(number: u64, payload: &[u8]) -> Option<LentEntry<'_>> {
    Some(LentEntry {
        sender: first_at(1),
        number: Number::new(number)?,
        payload: Payload::new(payload)?,
    })
}

/// Whether the entries of 1.1 with these numbers, whose payloads are the byte 7, are taken; false also where memory was refused.
fn are_taken(window: &mut Window, numbers: &[u64]) -> bool {
    for number in numbers {
        let Some(entry) = lent(*number, &[7]) else {
            return false;
        };
        if window.accept(*number, &entry) != Ok(true) {
            return false;
        }
    }
    true
}

/// The number of the message that is delivered next; 0 where there is none.
fn next(window: &mut Window) -> u64 {
    match window.take_ready() {
        Ok(Some(entry)) => entry.number.get(),
        Ok(None) => 0,
        Err(_) => 99,
    }
}

/// The number in the order that the last slot with an entry has; 0 where none has one.
fn last_held(window: &Window) -> u64 {
    let mut number = window.stable();
    let mut last = 0;
    for slot in window.slots() {
        number = number.saturating_add(1);
        if slot.is_some() {
            last = number;
        }
    }
    last
}

#[test]
fn entries_are_delivered_in_order(rt: HostRuntime) {
    let mut window = Window::new(rt.alloc()).ok().expect(&rt, "a window");
    assert!(rt; !are_taken(&mut window, &[65]), "65 of a window of 64");
    assert!(rt; are_taken(&mut window, &[64, 2, 3]), "64 of 64");
    assert_eq!(rt; next(&mut window), 0, "1 has not come");
    assert!(rt; are_taken(&mut window, &[1]), "1 comes");
    let first = (next(&mut window), next(&mut window));
    assert!(rt; first == (1, 2), "1 and 2 are delivered");
    let third = (window.deliver_next(), window.delivered());
    assert!(rt; third == (true, 3), "3 is delivered");
    windows_agree();
    beginnings_agree::<u8>();
}

#[test]
fn what_is_stable_is_let_go(rt: HostRuntime) {
    let mut window = Window::new(rt.alloc()).ok().expect(&rt, "a window");
    assert!(rt; are_taken(&mut window, &[64, 1, 2, 3]), "all are taken");
    let all = (next(&mut window), next(&mut window), next(&mut window));
    assert!(rt; all == (1, 2, 3), "three are delivered");
    window.collect(2);
    assert_eq!(rt; window.stable(), 2, "how many are stable");
    let held = (window.entry(2).is_some(), window.entry(3).is_some());
    assert!(rt; held == (false, true), "a stable one is let go");
    let last = (window.held_count(), last_held(&window));
    assert!(rt; last == (2, 64), "3 and 64 are held");
    assert!(rt; are_taken(&mut window, &[66]), "66 behind 2");
    assert!(rt; window.gaps(66) == Some((4, 65)), "what lacks");
}

#[test]
fn a_copy_has_the_parts_of_the_lent_one(rt: HostRuntime) {
    let lent = lent(4, &[1, 2]).expect(&rt, "a lent entry");
    let entry = Entry::copy_of(rt.alloc(), &lent).ok();
    let entry = entry.expect(&rt, "a copy");
    let again = entry.lent();
    assert!(rt; again.sender == first_at(1), "the sender");
    assert_eq!(rt; again.number.get(), 4, "the number");
    let payload = OwnedPayload::copy_of(rt.alloc(), &again.payload).ok();
    let payload = payload.expect(&rt, "a copy");
    let bytes = payload.lent().as_slice();
    assert!(rt; bytes == [1, 2].as_slice(), "the payload");
}

#[test]
fn a_payload_that_is_kept_is_shared(rt: HostRuntime) {
    let shared = Bytes::shared_from(rt.alloc(), &[1, 2]).ok();
    let shared = shared.expect(&rt, "memory");
    let payload = Payload::new(shared.as_slice()).expect(&rt, "a payload");
    let kept = OwnedPayload::copy_of(rt.alloc(), &payload).ok();
    let kept = kept.expect(&rt, "memory");
    let again = kept.shared(rt.alloc()).ok().expect(&rt, "memory");
    let bytes = kept.bytes(rt.alloc()).ok().expect(&rt, "memory");
    assert!(rt;
        again.lent().as_slice() == [1, 2].as_slice(),
        "kept once more"
    );
    assert!(rt; bytes.as_slice() == [1, 2].as_slice(), "its bytes");
}
