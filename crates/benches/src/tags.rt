//! What a tag costs.

use crate::carrier::KEY;
use crate::race::now;
use frames::Key;
use std::io;

// So many tags of messages of a length; the nanoseconds.
fn tags(rt: &HostRuntime, length: usize, count: u64) -> io::Result<u64> {
    let key = Key::new(KEY);
    let mut message = vec![in rt.alloc(); 7; length]?;
    let begun = now(rt)?;
    for _ in 0..count {
        let tag = key.tag(message.as_slice());
        if let Some(first) = message.as_mut_slice().first_mut() {
            *first = tag[0];
        }
    }
    Ok(now(rt)?.saturating_sub(begun))
}

fn print(rt: &HostRuntime, length: usize, count: u64) -> io::Result<()> {
    let took = tags(rt, length, count)?;
    let each = took / count.max(1);
    println!(rt; "tag of {length} {count} took {took} ns, each {each} ns")
}

/// Prints what tags cost of as many bytes as frames of 100 and of 1,400 bytes have before them.
pub(crate) fn run(rt: &HostRuntime) -> io::Result<()> {
    print(rt, 84, 200_000)?;
    print(rt, 1_384, 20_000)
}
