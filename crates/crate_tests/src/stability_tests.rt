use crate::fixtures::{first_at, view_of};
use stability::Acks;

#[test]
fn stable_is_the_least_count(rt: HostRuntime) {
    let view = view_of(rt.alloc(), &[1, 2]).expect(&rt, "a view");
    let mut acks = Acks::new(rt.alloc(), &view).ok().expect(&rt, "the counts");
    acks.note(&first_at(1), 5);
    acks.note(&first_at(2), 3);
    assert_eq!(rt; acks.stable(), 3);
}
