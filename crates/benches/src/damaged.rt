//! Frames with one byte changed, each byte to each other value: none of them may be opened.

use crate::carrier::KEY;
use address::Node;
use frames::{BOOT, FramedNet};
use memory_nets::MemoryNet;
use std::io;
use std::io::ErrorKind;
use std::time::Duration;
use udp_net::{Fault, Net, NodePort};

/// A net that gives damaged frames, and then none.
#[derive(Drop)]
struct Damaged {
    frames: Vec<Vec<u8>>,
    // Which frame is next, at which place it is damaged, and by which change.
    frame: usize,
    place: usize,
    change: u8,
}

impl Damaged {
    // The next damaged frame is the next one of these.
    fn go_on(&mut self, length: usize) {
        if self.change < 255 {
            self.change += 1;
            return;
        }
        self.change = 1;
        self.place = self.place.saturating_add(1);
        if self.place >= length {
            self.place = 0;
            self.frame = self.frame.saturating_add(1);
        }
    }
}

impl Net for Damaged {
    ghost use Rattle.std.specs.Prelude.{None};

    ghost log = { λ _. None };

    ghost failed = { λ _. 0 };

    ghost unsent = { λ _. 0 };

    fn send(&mut self, _node: Node, _bytes: &[u8]) {}

    fn receive(&mut self, buffer: &mut [u8]) -> Result<Option<usize>, Fault> {
        let Some(frame) = self.frames.as_slice().get(self.frame) else {
            return Ok(None);
        };
        let length = frame.len();
        if buffer.len() < length {
            return Ok(None);
        }
        buffer[..length].copy_from_slice(frame.as_slice());
        if let Some(byte) = buffer.get_mut(self.place) {
            *byte ^= self.change;
        }
        self.go_on(length);
        Ok(Some(length))
    }

    fn wait(&mut self, _limit: Duration) {}

    fn failures(&self) -> u64 {
        0
    }

    fn unsent(&self) -> u64 {
        0
    }
}

fn node(number: u16) -> io::Result<Node> {
    Node::new(number).ok_or(io::Error::from(ErrorKind::InvalidInput))
}

// The frames of packets of these lengths, each alone in its own, from node 1 to node 2.
fn frames_of(rt: &HostRuntime, lengths: &[String]) -> io::Result<Vec<Vec<u8>>> {
    let nodes = [NodePort {
        node: node(2)?,
        port: 1,
    }];
    let inner = MemoryNet::new(rt.alloc());
    let mut net = FramedNet::new(rt.alloc(), inner, node(1)?, &nodes, KEY, &[1; BOOT])?;
    for length in lengths {
        let packet = vec![in rt.alloc(); 7; length.as_str().parse().unwrap_or(0)]?;
        net.send(node(2)?, packet.as_slice());
        net.flush();
    }
    let mut frames = Vec::new(rt.alloc());
    for listed in net.into_inner().listed().unwrap_or(&[]) {
        if let Some(offered) = listed.offered() {
            frames.push(Vec::from_slice(rt.alloc(), offered.bytes.as_slice())?)?;
        }
    }
    Ok(frames)
}

// How many damaged frames there are of packets of these lengths, and how many packets node 2 is given of them.
fn count_given(rt: &HostRuntime, lengths: &[String]) -> io::Result<(u64, u64)> {
    let damaged = Damaged {
        frames: frames_of(rt, lengths)?,
        frame: 0,
        place: 0,
        change: 1,
    };
    let mut net = FramedNet::new(rt.alloc(), damaged, node(2)?, &[], KEY, &[2; BOOT])?;
    let mut buffer = vec![in rt.alloc(); 0; 40_001]?;
    let (mut given, mut refused) = (0u64, 0u64);
    for _ in 0..u64::MAX {
        if let Ok(Some(_)) = net.receive(buffer.as_mut_slice()) {
            given = given.saturating_add(1);
        }
        if net.refused() == refused {
            break;
        }
        refused = net.refused();
    }
    Ok((refused.saturating_add(given), given))
}

/// Prints how many damaged frames there are of packets of these lengths, and how many packets are given of them.
pub(crate) fn run(rt: &HostRuntime, lengths: &[String]) -> io::Result<()> {
    let (count, given) = count_given(rt, lengths)?;
    println!(rt; "{count} damaged frames, {given} given")
}
