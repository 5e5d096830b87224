//! The vectors of RFC 4231.

use frames::Key;
use std::alloc::AllocGlobal;
use std::process::Abort;

// Whether a message has this tag.
fn has(rt: &(impl Abort + AllocGlobal), key: &[u8], message: &[u8], digits: &str) -> bool {
    let tag = hex::decode(rt.alloc(), digits).expect(rt, "memory");
    assert!(rt; tag.len() <= 32);
    Key::new(key).verifies(message, tag.as_slice())
}

#[test]
fn keys_that_fit_in_a_block(rt: HostRuntime) {
    let digits = "b0344c61d8db38535ca8afceaf0bf12b881dc200c9833da726e9376c2e32cff7";
    assert!(rt; has(&rt, &[0x0b; 20], b"Hi There", digits), "vector 1");
    assert!(rt;
        !has(&rt, &[0x0b; 20], b"Hi there", digits),
        "another message"
    );
    let question = b"what do ya want for nothing?";
    let digits = "5bdcc146bf60754e6a042426089575c75a003f089d2739839dec58b964ec3843";
    assert!(rt; has(&rt, b"Jefe", question, digits), "vector 2");
    let digits = "773ea91e36800e46854db8ebd09181a72959098b3ef8c122d9635514ced565fe";
    assert!(rt; has(&rt, &[0xaa; 20], &[0xdd; 50], digits), "vector 3");
    let key = "0102030405060708090a0b0c0d0e0f10111213141516171819";
    let key = hex::decode(rt.alloc(), key).expect(&rt, "memory");
    let digits = "82558a389a443c0ea4cc819899f2083a85f0faa3e578f8077a2e3ff46729665b";
    assert!(rt; has(&rt, key.as_slice(), &[0xcd; 50], digits), "vector 4");
    let digits = "a3b6167473100ee06e0c796c2955552b";
    assert!(rt;
        has(&rt, &[0x0c; 20], b"Test With Truncation", digits),
        "vector 5, a cut tag"
    );
}

#[test]
fn keys_longer_than_a_block(rt: HostRuntime) {
    let key = [0xaa; 131];
    let message = b"Test Using Larger Than Block-Size Key - Hash Key First";
    let digits = "60e431591ee0b67f0d8a26aacbf5b77f8e0bc6213728c5140546040f0ee37f54";
    assert!(rt; has(&rt, &key, message, digits), "vector 6");
    let data =
        b"This is a test using a larger than block-size key and a larger than block-size data. \
        The key needs to be hashed before being used by the HMAC algorithm.";
    let digits = "9b09ffa71b942fcb27635fbcd5b0e944bfdc63644f0713938a7f51535c3a35e2";
    assert!(rt; has(&rt, &key, data, digits), "vector 7");
}
