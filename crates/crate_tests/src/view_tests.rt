use crate::fixtures::{first_at, view_of};
use address::ViewId;
use view::{View, ViewError};

#[test]
fn a_view_has_its_members_in_order_of_rank(rt: HostRuntime) {
    let view = view_of(rt.alloc(), &[1, 3]).expect(&rt, "a view");
    let (one, three) = (first_at(1), first_at(3));
    assert!(rt; view.rank(&three) == Some(1), "the rank of the second");
    let members = view.members();
    let copy = members.copied(rt.alloc()).ok().expect(&rt, "a copy");
    assert!(rt; copy.as_slice() == [one, three].as_slice(), "all");
    assert!(rt; members.contains(&three), "the second is in it");
    assert_eq!(rt; members.len(), 2, "how many there are");
}

#[test]
fn a_view_alone_has_its_id(rt: HostRuntime) {
    let id = ViewId::first_of(first_at(1));
    let view = View::alone(rt.alloc(), id).ok().expect(&rt, "a view");
    assert!(rt; view.id() == id, "the id");
    assert_eq!(rt; ViewError::NotFirst.number(), 33, "a refusal");
}
