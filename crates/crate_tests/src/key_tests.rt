use address::Bytes;
use big_endian::Reader;
use keyed_state::{
    KeyBytes, KeyedEntry, is_rising, key_field, key_from, last_key, look_ups, put_key,
};
use std::alloc::{AllocError, Global};

// Two entries of the key `a`.
fn equal_keys(alloc: Global) -> Result<Vec<KeyedEntry<u64>>, AllocError> {
    let mut entries = Vec::new(alloc);
    for value in 0..2u64 {
        let key = Bytes::from_slice(alloc, b"a")?;
        entries.push(KeyedEntry { key, value })?;
    }
    Ok(entries)
}

#[test]
fn equal_keys_do_not_rise(rt: HostRuntime) {
    look_ups::<u64>();
    match equal_keys(rt.alloc()) {
        Ok(entries) => assert!(rt; !is_rising(entries.as_slice())),
        Err(_) => assert!(rt; false, "there is memory"),
    }
}

#[test]
fn a_key_is_spelled_behind_its_length(rt: HostRuntime) {
    let Some(key) = KeyBytes::new(b"ab") else {
        return;
    };
    let Ok(mut out) = Vec::with_capacity(rt.alloc(), 3) else {
        return;
    };
    put_key(key.as_slice(), &mut out);
    assert!(rt; out.as_slice() == b"\x02ab".as_slice(), "it is written");
    let mut from = Reader::new(out.as_slice());
    match key_from(&mut from) {
        Some(read) => assert!(rt; read.as_slice() == b"ab".as_slice(), "it is read"),
        None => assert!(rt; false, "the bytes begin with a key"),
    }
}

#[test]
fn a_key_is_a_field_of_a_line(rt: HostRuntime) {
    match key_field(Some(b"ab c")) {
        Ok((key, rest)) => {
            assert!(rt; key.as_slice() == b"ab".as_slice(), "the key");
            assert!(rt; rest == Some(b"c".as_slice()), "what is left");
        }
        Err(_) => assert!(rt; false, "the key is read"),
    }
    assert!(rt; last_key(Some(b"ab")).is_ok(), "the last field");
}
