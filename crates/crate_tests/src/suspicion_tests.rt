use crate::fixtures::{first_at, view_of};
use suspicion::Suspects;

#[test]
fn who_is_not_suspected_leads_and_survives(rt: HostRuntime) {
    let view = view_of(rt.alloc(), &[1, 2, 3]).expect(&rt, "a view");
    let mut suspects = Suspects::new(rt.alloc());
    let (one, two, three) = (first_at(1), first_at(2), first_at(3));
    assert!(rt; suspects.add(two).is_ok(), "the second is suspected");
    assert!(rt; suspects.has(&two), "it is among the suspects");
    assert!(rt; !suspects.leads(&view, &three), "not all earlier are");
    let left = suspects.survivors(rt.alloc(), &view).ok();
    let left = left.expect(&rt, "those who are left");
    assert_eq!(rt; left.len(), 2, "how many are left");
    assert!(rt; suspects.add(one).is_ok(), "the first is suspected");
    assert!(rt; suspects.leads(&view, &three), "all earlier are");
    suspects.clear();
    assert!(rt; !suspects.has(&two), "nobody is suspected any longer");
}
