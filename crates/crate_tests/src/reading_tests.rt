use big_endian::{Reader, known_bytes};

#[test]
fn values_are_read_one_after_another(rt: HostRuntime) {
    let bytes =
        b"\x07\x00\x08\x00\x00\x00\x09\x00\x00\x00\x00\x00\x00\x00\x0a\x00\x02\x00\x00\x00\x03hi";
    known_bytes(bytes);
    let mut from = Reader::new(bytes);
    assert!(rt; from.u8(8, 9).is_none(), "a number out of its range");
    assert!(rt; from.u8(1, 9) == Some(7), "one byte");
    assert!(rt; from.u16(8, 8) == Some(8), "two bytes");
    assert!(rt; from.u32(0, 9) == Some(9), "four bytes");
    assert!(rt; from.u64(0, 10) == Some(10), "eight bytes");
    match from.address() {
        Some(address) => assert!(rt;
            address.node().number() == 2 && address.incarnation() == 3,
            "an address"
        ),
        None => assert!(rt; false, "an address is read"),
    }
    assert!(rt;
        from.bytes(2) == Some(b"hi".as_slice()),
        "two bytes as they are"
    );
    assert!(rt; from.is_empty(), "nothing is left");
}
