//! What an INSTALL says of a state (docs/WIRE.md): that there is none, a whole one of up to 4,096 bytes, or one of up to 1,048,576 bytes in chunks.

use crate::wire_samples::{INSTALL_WITH_STATE, refusal, unhex};
use std::alloc::{AllocError, Global};

/// Where the flag of the state stands in an INSTALL of 2@1.1 to 2.1 alone, with no entries.
const FLAG: usize = 65;

/// That INSTALL with a text in hexadecimal from the flag on, and so many nines behind it.
fn install(alloc: Global, text: &[u8], nines: usize) -> Result<Vec<u8>, AllocError> {
    let mut bytes = unhex(alloc, INSTALL_WITH_STATE)?;
    bytes.truncate(FLAG);
    let behind = unhex(alloc, text)?;
    bytes.extend_from_slice(behind.as_slice())?;
    for _ in 0..nines {
        bytes.push(9)?;
    }
    Ok(bytes)
}

/// The number with which that INSTALL is refused; 0 where it is a packet, 99 where memory was refused.
fn given(alloc: Global, text: &[u8], nines: usize) -> u8 {
    match install(alloc, text, nines) {
        Ok(bytes) => refusal(&bytes),
        Err(_) => 99,
    }
}

#[test]
fn a_state_may_be_none_or_whole_or_in_chunks(rt: HostRuntime) {
    let alloc = rt.alloc();
    assert_eq!(rt; given(alloc, b"00", 0), 0, "no state");
    assert_eq!(rt; given(alloc, b"01 00000000", 0), 0, "no bytes");
    assert_eq!(rt; given(alloc, b"01 00001000", 4_096), 0, "4,096");
    assert_eq!(rt; given(alloc, b"01 00001001", 4_097), 24, "4,097");
    assert_eq!(rt; given(alloc, b"02 00001000", 0), 24, "4,096, cut");
    assert_eq!(rt; given(alloc, b"02 00001001", 0), 0, "4,097, cut");
    assert_eq!(rt; given(alloc, b"02 00100000", 0), 0, "1,048,576");
    assert_eq!(rt; given(alloc, b"02 00100001", 0), 24, "1,048,577");
    assert_eq!(rt; given(alloc, b"03 00001001", 0), 25, "the flag 3");
}
