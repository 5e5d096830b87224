use crate::fixtures::{address, first_at};
use address::{Address, Exhausted, ViewId, next_after};

#[test]
fn ids_have_their_parts_their_order_and_their_text(rt: HostRuntime) {
    let last = address(65535, 4_294_967_295);
    let node = last.node();
    assert_eq!(rt; node.number(), 65535, "the greatest node");
    assert_eq!(rt; last.incarnation(), 4_294_967_295, "the greatest");
    let next = Address::first_at(node).next_incarnation();
    assert!(rt; next == Address::new(node, 2), "behind the first");
    let (low, high) = (address(2, 9), first_at(3));
    let first = ViewId::first_of(high);
    let second = next_after(&first, low).ok().expect(&rt, "a second id");
    assert!(rt; first < second, "ordered by counter first");
    let text = format!(in rt.alloc(); "{high} {second}")
        .ok()
        .expect(&rt, "memory");
    assert!(rt; text.as_str() == "3.1 2@2.9", "as they are written");
    assert_eq!(rt; Exhausted.number(), 8, "the refusal");
}
