//! Rows by the numbers of packets.

ghost use Rattle.std.specs.Prelude.{◌≡◌, ℕ, None, Some, nat_eq, if◌then◌else◌, IfOk, OnOk};
ghost use Rattle.trace_drawing.specs.Packets.{row_in};

use crate::known::put_row;
use address::Bytes;
use std::alloc::{AllocError, Global};
use std::collections::HashMap;

/// A row for each packet of which one is known. Those of the packets that there are stand in a list by their numbers; those of other
/// numbers are looked up.
pub struct PacketRows {
    pub near: Vec<Option<u32>>,
    pub far: HashMap<u64, u32>,
}

impl Drop for PacketRows {
    fn drop(self) {
        let PacketRows { near: _, far: _ } = self;
    }
}

impl PacketRows {
    /// No row is known, of these packets or of others.
    pub fn new(alloc: Global, packets: &[Bytes]) -> Result<PacketRows, AllocError>
        ensures { IfOk result (λ table. (n : ℕ) → row_in table n ≡ None) }
    {
        let mut near: Vec<Option<u32>> = Vec::new(alloc);
        near.resize(packets.len() + 1, None)?;
        Ok(PacketRows {
            near,
            far: HashMap::new(alloc),
        })
    }

    /// The row of a packet.
    pub fn get(&self, packet: u64) -> Option<u32>
        ensures { result ≡ row_in self.now packet }
    {
        match self.near.get(packet as usize) {
            Some(row) => *row,
            None => self.far.get(&packet).copied(),
        }
    }

    /// Keeps the row of a packet.
    pub fn put(&mut self, packet: u64, row: u32) -> Result<(), AllocError>
        ensures { OnOk result ((n : ℕ) → row_in self.new n ≡ (if nat_eq packet n then Some row else row_in self.old n)) }
    {
        let index = packet as usize;
        if index < self.near.len() {
            self.near[index] = Some(row);
            return Ok(());
        }
        put_row(&mut self.far, packet, row)
    }
}
