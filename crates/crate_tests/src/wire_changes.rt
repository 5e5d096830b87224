use crate::wire_samples::{refusal, unhex};
use std::alloc::Global;

/// The number with which bytes that stand in hexadecimal are refused; 99 where memory was refused.
fn refusal_of(alloc: Global, text: &[u8]) -> u8 {
    match unhex(alloc, text) {
        Ok(bytes) => refusal(&bytes),
        Err(_) => 99,
    }
}

#[test]
fn a_changed_join_is_refused(rt: HostRuntime) {
    let version = b"56530901 05 776f726c64 000200000001 000100000001";
    assert_eq!(rt; refusal_of(rt.alloc(), version), 22, "another version");
    let kind = b"5653030f 05 776f726c64 000200000001 000100000001";
    assert_eq!(rt; refusal_of(rt.alloc(), kind), 23, "an unknown kind");
}

#[test]
fn a_datagram_of_40001_bytes_is_too_long(rt: HostRuntime) {
    let mut zeros = vec![in rt.alloc(); 0u8; 40_001]
        .ok()
        .expect(&rt, "the bytes");
    assert_eq!(rt; refusal(&zeros), 24, "40,001 zeros");
    zeros.truncate(40_000);
    assert_eq!(rt; refusal(&zeros), 21, "40,000 zeros are of another protocol");
}
