//! How long a packet takes to read and to write, beside a copy of its bytes. Packets come on the standard input, each
//! behind a `~`: the line of its name, and its bytes.

use std::io::{self, Read};
use std::time::Instant;
use wire::{decode, encode};
use wire_values::Packet;

const ROUNDS: u64 = 20_000;

/// The kind of a packet; 0 of other bytes.
fn kind_of(bytes: &[u8]) -> u8 {
    match decode(bytes) {
        Ok(packet) => packet.body.kind(),
        Err(_) => 0,
    }
}

/// The nanoseconds that a decode takes.
fn reading(rt: &HostRuntime, bytes: &[u8], kinds: &mut u8) -> io::Result<u128> {
    let start = Instant::now(rt)?;
    for _ in 0..ROUNDS {
        *kinds = kinds.wrapping_add(kind_of(bytes));
    }
    Ok(start.elapsed(rt)?.as_nanos() / 20_000)
}

/// The nanoseconds that an encode takes.
fn writing(rt: &HostRuntime, packet: &Packet<'_>, out: &mut Vec<u8>) -> io::Result<u128> {
    let start = Instant::now(rt)?;
    for _ in 0..ROUNDS {
        out.clear();
        encode(packet, out)?;
    }
    Ok(start.elapsed(rt)?.as_nanos() / 20_000)
}

/// The nanoseconds that a copy takes.
fn copying(rt: &HostRuntime, bytes: &[u8], out: &mut Vec<u8>, kinds: &mut u8) -> io::Result<u128> {
    let start = Instant::now(rt)?;
    for _ in 0..ROUNDS {
        out.clear();
        out.extend_from_slice(bytes)?;
        *kinds = kinds.wrapping_add(out.last().copied().unwrap_or(0));
    }
    Ok(start.elapsed(rt)?.as_nanos() / 20_000)
}

/// Prints what a packet costs, behind its name; of other bytes that they are none.
fn measure(rt: &HostRuntime, name: &str, bytes: &[u8]) -> io::Result<()> {
    let Ok(packet) = decode(bytes) else {
        println!(rt; "{name} is no packet")?;
        return Ok(());
    };
    let mut out = Vec::with_capacity(rt.alloc(), bytes.len())?;
    let mut kinds = 0u8;
    let reading = reading(rt, bytes, &mut kinds)?;
    let writing = writing(rt, &packet, &mut out)?;
    let copying = copying(rt, bytes, &mut out, &mut kinds)?;
    let length = bytes.len();
    println!(rt;
        "{name}, {length} bytes: decode {reading} ns, encode {writing} ns, memcpy {copying} ns ({kinds})"
    )?;
    Ok(())
}

/// Measures the packet of a section, which its name's line begins.
fn measure_section(rt: &HostRuntime, section: &[u8]) -> io::Result<()> {
    let line = section
        .iter()
        .position(|b| *b == b'\n')
        .unwrap_or(section.len());
    let (name, rest) = section.split_at(line);
    let bytes = rest.split_first().map_or(rest, |(_, bytes)| bytes);
    measure(rt, str::from_utf8(name).unwrap_or("?"), bytes)
}

/// Measures each packet of the standard input.
pub(crate) fn run(rt: &HostRuntime) -> io::Result<()> {
    let mut sections = Vec::new(rt.alloc());
    rt.reader().read_to_end(&mut sections)?;
    for section in sections.split(|b| *b == b'~') {
        if !section.is_empty() {
            measure_section(rt, section)?;
        }
    }
    Ok(())
}
