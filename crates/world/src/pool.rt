//! Every packet that was ever put out.

ghost use Rattle.std.specs.Prelude.{◌≡◌, ◌++◌, [], length, map, false, OnOk, OnErr};
ghost use Rattle.std.specs.Option.{option_copied, option_and_then, option_map_or};
ghost use Rattle.world_model.specs.Packets.{packet_numbered, destination_of};
ghost use Rattle.world.specs.Pools.{first_for, is_destined};
ghost use Rattle.world.specs.NodeStates.{bytes_of};
ghost use Rattle.world.specs.Outputs.{AreAddressed};

use address::{Address, Bytes};
use std::alloc::{AllocError, Global};
use std::marker::Model;
use step_output::Outgoing;

/// Packets as bytes, numbered from 1 in the order in which they were put out. Nothing is ever removed. To whom each goes is kept beside it.
pub struct Pool {
    packets: Vec<Bytes>,
    destinations: Vec<Address>,
}

impl Drop for Pool {
    fn drop(self) {
        let Pool {
            packets: _,
            destinations: _,
        } = self;
    }
}

impl Model for Pool {
    ghost use Rattle.std.specs.Prelude.{List, ℕ, ◌≡◌, map, Some};
    ghost use Rattle.world_model.specs.Packets.{destination_of};

    ghost Value = { List (List ℕ) };

    ghost view = { λ p. p.packets.items };

    // Each packet says what is kept of it.
    ghost invariant = { λ p. map destination_of p.packets.items ≡ map (λ d. Some d) p.destinations.items };
}

impl Pool {
    /// A pool without a packet. Takes no memory.
    pub fn new(alloc: Global) -> Pool
        ensures { result ≡ [] }
    {
        Pool {
            packets: Vec::new(alloc),
            destinations: Vec::new(alloc),
        }
    }

    /// The packet of a number, from 1.
    pub fn packet(&self, number: u64) -> Option<&[u8]>
        ensures { option_copied result ≡ packet_numbered number self.now }
    {
        let index = usize::try_from(number.checked_sub(1)?).ok()?;
        let packet = self.packets.get(index)?;
        Some(packet.as_slice())
    }

    /// To whom the packet of a number goes.
    pub fn destination(&self, number: u64) -> Option<Address>
        ensures { result ≡ option_and_then destination_of (packet_numbered number self.now) }
    {
        let index = usize::try_from(number.checked_sub(1)?).ok()?;
        let destination = self.destinations.get(index)?;
        Some(*destination)
    }

    /// All packets, in order.
    pub fn packets(&self) -> &[Bytes]
        ensures { result.now ≡ self.now }
    {
        self.packets.as_slice()
    }

    /// How many there are.
    pub fn count(&self) -> u64
        ensures { result ≡ length self.now }
    {
        self.packets.len() as u64
    }

    /// The number of the first packet past so many that is for an address.
    pub fn first_for(&self, address: Address, past: u64) -> Option<u64>
        ensures { result ≡ first_for address past self.now }
    {
        let mut known = past;
        while known < self.count() {
            known += 1;
            if self.is_for(known, address) {
                return Some(known);
            }
        }
        None
    }

    /// Whether the packet of a number is for an address.
    fn is_for(&self, number: u64, address: Address) -> bool
        ensures { result ≡ option_map_or (is_destined address) (packet_numbered number self.now) false }
    {
        self.destination(number) == Some(address)
    }

    /// Puts out packets, in order. On refusal of their places the pool is as before, and there was one at least.
    pub fn put_all(&mut self, packets: Vec<Outgoing>) -> Result<(), AllocError>
        requires addressed { AreAddressed packets.items }
        ensures ok { OnOk result (self.new ≡ self.old ++ map bytes_of packets.items) }
        ensures err { OnErr result (self.new ≡ self.old) }
        ensures some { OnErr result (packets.items ≡ [] → ⊥) }
    {
        if packets.is_empty() {
            return Ok(());
        }
        self.packets.reserve(packets.len())?;
        self.destinations.reserve(packets.len())?;
        for packet in packets {
            self.packets.push_reserved(packet.bytes);
            self.destinations.push_reserved(packet.destination);
        }
        Ok(())
    }
}
