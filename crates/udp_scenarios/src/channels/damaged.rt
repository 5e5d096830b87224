//! Hands damaged packets to channels. `packets.txt` has one valid packet of each kind and more; of each, every proper beginning must be refused as 20, a byte
//! more as 26, and each change of one byte must give a refusal, or a packet whose spelling is the changed bytes; a channel must answer the same refusal, and be
//! as before. Then a few cases by themselves. Prints how many of each outcome there were, and a sum that tells them apart by their order; `stdout` has what
//! must be printed, which `expected` says by a reader of its own.

use crate::channels::cases::Cases;
use crate::channels::hexadecimal::unhex;
use crate::channels::judge::Judge;
use crate::channels::stands::Stand;
use crate::channels::tally::Tally;
use crate::files::bytes_of;
use crate::lines::Told;
use crate::print;
use std::alloc::{AllocError, Global};
use std::io;
use vsync_text::Part;

/// Packets up to this length come each to a channel that was handed no other.
const SHORT: usize = 200;

/// What came of all readings so far.
#[derive(Clone, Copy)]
struct Total {
    packets: u64,
    changes: u64,
    readings: u64,
    wrong: u64,
}

impl Total {
    /// Adds what came of the readings of one packet.
    fn add(&mut self, tally: &Tally) {
        self.packets = self.packets.wrapping_add(1);
        self.changes = self.changes.wrapping_add(tally.changes());
        self.readings = self.readings.wrapping_add(tally.readings());
        self.wrong = self.wrong.wrapping_add(tally.wrong());
    }
}

/// What comes of a packet, for a channel that stands so.
fn judged(alloc: Global, packet: &[u8], stand: Stand) -> Result<Tally, AllocError> {
    let mut judge = Judge::new(alloc, stand, packet.len() <= SHORT)?;
    judge.read_all(packet)?;
    judge.tally()
}

/// Prints what came of a packet with this name.
fn print_tally(rt: &HostRuntime, name: &[u8], length: usize, tally: &Tally) -> io::Result<()> {
    let mut told = Told::new(rt.alloc());
    told.parts(&[
        Part::Text(name),
        Part::Text(b", "),
        Part::Number(length as u64),
        Part::Text(b" bytes, "),
    ]);
    tally.put(&mut told);
    print(rt, &told)
}

/// Reads a packet with this name, for a channel that stands so, and prints what came of it.
fn read_packet(
    rt: &HostRuntime,
    name: &[u8],
    stand: Stand,
    digits: &[u8],
    total: &mut Total,
) -> io::Result<()> {
    let packet = unhex(rt.alloc(), digits)?;
    let tally = judged(rt.alloc(), packet.as_slice(), stand)?;
    total.add(&tally);
    print_tally(rt, name, packet.len(), &tally)
}

/// Reads the packet of a line, if it has one.
fn read_line(rt: &HostRuntime, line: &[u8], total: &mut Total) -> io::Result<()> {
    let mut words = line.split(|byte| *byte == b' ');
    match (words.next(), words.next(), words.next()) {
        (Some(name), Some(stand), Some(digits)) => {
            read_packet(rt, name, Stand::of(stand), digits, total)
        }
        _ => Ok(()),
    }
}

/// Reads all packets of the file.
fn read_packets(rt: &HostRuntime, total: &mut Total) -> io::Result<()> {
    let text = bytes_of(rt, "packets.txt")?;
    for line in text.as_slice().split(|byte| *byte == b'\n') {
        read_line(rt, line, total)?;
    }
    Ok(())
}

/// Prints the cases by themselves.
fn print_cases(rt: &HostRuntime) -> io::Result<()> {
    let mut cases = Cases::new(rt.alloc());
    cases.all();
    print(rt, &cases.told)
}

/// Reads all and prints all; answers whether nothing was wrong.
pub(crate) fn run(rt: &HostRuntime) -> io::Result<bool> {
    let mut total = Total {
        packets: 0,
        changes: 0,
        readings: 0,
        wrong: 0,
    };
    read_packets(rt, &mut total)?;
    print_cases(rt)?;
    let passed = total.readings.saturating_sub(total.wrong);
    println!(rt;
        "damaged bytes: {} packets, {} changes of one byte: {passed} passed, {} failed",
        total.packets, total.changes, total.wrong
    )?;
    Ok(total.wrong == 0)
}
