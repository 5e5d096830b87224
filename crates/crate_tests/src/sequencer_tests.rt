use crate::fixtures::{first_at, view_of};
use address::Address;
use nak_stream::OwnedPayload;
use sequencer::{Forwards, Orderer};
use std::alloc::Global;
use wire_values::{Number, Payload};

/// Whether the message of an address with one byte is taken; false also where memory was refused.
fn offered(orderer: &mut Orderer, sender: Address, number: u64, byte: u8) -> bool {
    let bytes = [byte];
    match (Number::new(number), Payload::new(&bytes)) {
        (Some(number), Some(payload)) => orderer.forward(&sender, number, &payload) == Ok(true),
        _ => false,
    }
}

/// Whether the message of an address with one byte is taken that is kept already; false also where memory was refused.
fn taken(alloc: Global, orderer: &mut Orderer, sender: Address, number: u64, byte: u8) -> bool {
    let bytes = [byte];
    let (Some(number), Some(payload)) = (Number::new(number), Payload::new(&bytes)) else {
        return false;
    };
    match OwnedPayload::copy_of(alloc, &payload) {
        Ok(kept) => orderer.take(&sender, number, kept),
        Err(_) => false,
    }
}

/// The number in the order, the sender's node, the number and the first byte of the message that comes next.
fn ordered(orderer: &mut Orderer) -> Option<(u64, u16, u64, u8)> {
    let (g, entry) = orderer.ready(0)?;
    let byte = entry.payload.lent().as_slice().first().copied()?;
    Some((
        g.get(),
        entry.sender.node().number(),
        entry.number.get(),
        byte,
    ))
}

#[test]
fn orders_by_rank_and_number(rt: HostRuntime) {
    let view = view_of(rt.alloc(), &[1, 2]).expect(&rt, "a view");
    let orderer = Orderer::new(rt.alloc(), &view).ok();
    let mut orderer = orderer.expect(&rt, "an orderer");
    let (one, two) = (first_at(1), first_at(2));
    assert!(rt; offered(&mut orderer, two, 2, 120), "2 of 2.1");
    assert!(rt; ordered(&mut orderer).is_none(), "1 of 2.1 lacks");
    assert!(rt; offered(&mut orderer, two, 1, 121), "1 of 2.1");
    assert!(rt; taken(rt.alloc(), &mut orderer, one, 1, 122), "1 of 1.1");
    let (first, second) = (ordered(&mut orderer), ordered(&mut orderer));
    assert!(rt; first == Some((1, 1, 1, 122)), "1 of 1.1 comes first");
    assert!(rt; second == Some((2, 2, 1, 121)), "then 1 of 2.1");
    let third = ordered(&mut orderer);
    assert!(rt; third == Some((3, 2, 2, 120)), "then 2 of 2.1");
    assert_eq!(rt; orderer.ordered(), 3, "how many were ordered");
}

/// The number that a message of the byte 7 is taken under; 100 and the number of the refusal where it is refused, and 0 where memory was.
fn pushed(alloc: Global, forwards: &mut Forwards) -> u64 {
    let Some(payload) = Payload::new(&[7]) else {
        return 0;
    };
    let Ok(payload) = OwnedPayload::copy_of(alloc, &payload) else {
        return 0;
    };
    match forwards.push(payload) {
        Ok(number) => number.get(),
        Err((_, refusal)) => 100 + u64::from(refusal.number()),
    }
}

#[test]
fn eight_messages_may_be_outstanding(rt: HostRuntime) {
    let alloc = rt.alloc();
    let mut forwards = Forwards::new(alloc).ok().expect(&rt, "room");
    for number in 1..9 {
        assert_eq!(rt; pushed(alloc, &mut forwards), number, "in turn");
    }
    assert_eq!(rt; pushed(alloc, &mut forwards), 103, "a ninth");
    let handed_back = forwards.handed_back(6).expect(&rt, "memory");
    assert_eq!(rt; handed_back.as_slice().len(), 2, "handed back");
    forwards.oldest_delivered();
    assert_eq!(rt; forwards.rest().len(), 7, "outstanding");
    assert_eq!(rt; forwards.sent(), 8, "how many were sent");
}
