use crate::fixtures::{address, first_at, listed, view_of};
use address::{Address, ViewId};
use next_view::ViewNotes;
use std::alloc::Global;
use view::View;

/// Notes a joiner at the view of 1.1, which has no flush of its own; false where memory was refused.
fn joins(alloc: Global, notes: &mut ViewNotes, view: &View, joiner: Address) -> bool {
    let me = first_at(1);
    notes.note_joiner(alloc, &me, view, &[], joiner).is_ok()
}

/// Whether the candidates of 1.1 are the first addresses of these nodes, in order.
fn are(alloc: Global, notes: &ViewNotes, view: &View, nodes: &[u16]) -> bool {
    let candidates = notes.candidates(alloc, &first_at(1), view);
    match (candidates, listed(alloc, nodes)) {
        (Ok(candidates), Some(wanted)) => candidates.as_slice() == wanted.as_slice(),
        _ => false,
    }
}

#[test]
fn joiners_follow_the_members_in_order_of_arrival(rt: HostRuntime) {
    let alloc = rt.alloc();
    let view = view_of(alloc, &[1, 3, 2]).expect(&rt, "a view");
    let mut notes = ViewNotes::new(alloc);
    assert!(rt; joins(alloc, &mut notes, &view, first_at(5)), "5.1");
    assert!(rt; joins(alloc, &mut notes, &view, first_at(4)), "4.1");
    assert!(rt; are(alloc, &notes, &view, &[1, 3, 2, 5, 4]), "both");
    let changed = notes.is_changed(alloc, &first_at(1), &view);
    assert!(rt; changed == Ok(true), "they are not the members");
    notes.clear();
    assert!(rt; are(alloc, &notes, &view, &[1, 3, 2]), "no joiner");
}

#[test]
fn a_later_incarnation_takes_the_place_of_the_earlier(rt: HostRuntime) {
    let alloc = rt.alloc();
    let view = view_of(alloc, &[1, 2]).expect(&rt, "a view");
    let mut notes = ViewNotes::new(alloc);
    let (me, later) = (first_at(1), address(2, 2));
    assert!(rt; notes.outdate(&me, &view, &later).is_ok(), "memory");
    assert!(rt; joins(alloc, &mut notes, &view, later), "2.2");
    assert!(rt; notes.is_suspected(&first_at(2)), "2.1 is suspected");
    let count = notes.candidate_count(alloc, &me, &view);
    assert!(rt; count == Ok(2), "how many candidates there are");
}

/// The view 7@3.1 of 3.1 and 4.1.
fn other_view(alloc: Global) -> Option<View> {
    View::new(ViewId::new(7, first_at(3))?, listed(alloc, &[3, 4])?).ok()
}

#[test]
fn a_proposal_is_past_all_counters_that_were_heard(rt: HostRuntime) {
    let alloc = rt.alloc();
    let view = view_of(alloc, &[1, 2]).expect(&rt, "a view");
    let other = other_view(alloc).expect(&rt, "another view");
    let mut notes = ViewNotes::new(alloc);
    notes.hear(5);
    assert!(rt; notes.next_counter(3) == Some(6), "past 5");
    let noted = notes.note_view(alloc, &first_at(1), &view, &other);
    assert!(rt; noted.is_ok(), "memory");
    assert!(rt; notes.next_counter(1) == Some(8), "past 7@3.1");
}

#[test]
fn who_was_not_let_in_stays_noted(rt: HostRuntime) {
    let alloc = rt.alloc();
    let view = view_of(alloc, &[1, 2]).expect(&rt, "a view");
    let next = view_of(alloc, &[1, 3]).expect(&rt, "the next view");
    let mut notes = ViewNotes::new(alloc);
    assert!(rt; joins(alloc, &mut notes, &view, first_at(3)), "3.1");
    assert!(rt; joins(alloc, &mut notes, &view, first_at(4)), "4.1");
    notes.settle(&next);
    assert!(rt; are(alloc, &notes, &view, &[1, 2, 4]), "without 3.1");
}

#[test]
fn the_second_leads_once_the_first_is_suspected(rt: HostRuntime) {
    let view = view_of(rt.alloc(), &[1, 2, 3]).expect(&rt, "a view");
    let mut notes = ViewNotes::new(rt.alloc());
    let (one, two) = (first_at(1), first_at(2));
    assert!(rt; !notes.leads(&view, &two), "nobody is suspected");
    assert!(rt; notes.suspect(one).is_ok(), "the first is suspected");
    assert!(rt; notes.leads(&view, &two), "the second leads");
    let first = notes.first_unsuspected(&view);
    assert!(rt; first == Some(two), "it is the first unsuspected");
    assert!(rt; notes.is_broken(&[one, two]), "a list with a suspect");
    assert!(rt; notes.is_abandoned(&one), "a proposal of a suspect");
}
