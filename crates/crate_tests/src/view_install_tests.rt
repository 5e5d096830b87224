ghost use Rattle.std.specs.Prelude.{◌≤◌};

use crate::fixtures::first_at;
use address::ViewId;
use view_install::{InstallAnswer, OfferAnswer, Promise, promises_rise};
use wire_values::Roster;

/// The proposal of this counter by 1.1, with 1.1 and another node as its list.
fn proposal(counter: u64, node: u16) -> Option<Roster>
    requires { 1 ≤ node }
{
    let first = first_at(1);
    Roster::new(ViewId::new(counter, first)?, &[first, first_at(node)])
}

/// The answer of 2.1 to a proposal of 1.1 and 2.1.
fn offered(promise: &mut Promise, counter: u64) -> OfferAnswer {
    match proposal(counter, 2) {
        Some(roster) => promise.offer(&roster),
        None => OfferAnswer::Behind(99),
    }
}

/// Whether an install of 1.1 and a node is accepted.
fn installed(promise: &mut Promise, counter: u64, node: u16) -> bool
    requires { 1 ≤ node }
{
    match proposal(counter, node) {
        Some(roster) => promise.install(&roster) == InstallAnswer::Accept,
        None => false,
    }
}

#[test]
fn the_greatest_offer_is_promised_and_installed(rt: HostRuntime) {
    let mut promise = Promise::new(first_at(2));
    assert!(rt; offered(&mut promise, 5) == OfferAnswer::Accept, "5");
    let answer = offered(&mut promise, 4);
    assert!(rt; answer == OfferAnswer::Behind(5), "4 behind 5");
    assert!(rt; offered(&mut promise, 6) == OfferAnswer::Accept, "6");
    assert!(rt; promise.is_frozen(), "the promise binds");
    let promised = promise.proposal().map(|roster| roster.id().counter());
    assert!(rt; promised == Some(6), "the greatest is promised");
    assert!(rt; !installed(&mut promise, 6, 3), "another list is not");
    assert!(rt; installed(&mut promise, 6, 2), "the promised view is");
    assert!(rt; !promise.is_frozen(), "it frees the promise");
    promises_rise();
}
