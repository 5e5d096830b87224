ghost use Rattle.std.specs.Prelude.{◌≡◌, [], ◌∷◌, IfOk, OnOk};
ghost use Rattle.wire.specs.Packets.{IsPacket};
ghost use Rattle.trace_props.specs.Recorded.{IsShort};
ghost use Rattle.wire_values.specs.Posted.{packet};
ghost use Rattle.step_output.specs.Outputs.{Grows, packet_in, spelled, is_for};

use crate::{Outgoing, Output, OwnedName};
use address::{Address, Bytes};
use std::alloc::{AllocError, Global};
use trace_props::Event;
use wire::encode;
use wire_values::{Body, Packet};

/// Who a member is, its address and its group, and from where it takes memory.
#[derive(Drop)]
pub struct Identity {
    pub alloc: Global,
    pub address: Address,
    pub group: OwnedName,
}

impl Identity {
    /// A packet of this member, in bytes.
    pub fn spelled(&self, destination: Address, body: Body<'_>) -> Result<Outgoing, AllocError>
        ensures { IfOk result (λ o. let m = packet self.now.address body.entry destination in (o ≡ spelled self.now.group m) × IsPacket (packet_in self.now.group m)) }
    {
        let packet = Packet {
            group: self.group.lent(),
            source: self.address,
            destination,
            body,
        };
        let mut bytes = Vec::new(self.alloc);
        encode(&packet, &mut bytes)?;
        Ok(Outgoing {
            destination,
            bytes: Bytes::from_vec(bytes),
        })
    }

    /// Puts out a packet, behind those before. After an error for want of memory nothing is said of the output.
    pub fn put(
        &self,
        destination: Address,
        body: Body<'_>,
        out: &mut Output,
    ) -> Result<(), AllocError>
        ensures { OnOk result (Grows self.now.group out.old out.new (packet self.now.address body.entry destination ∷ []) []) }
    {
        let packet = self.spelled(destination, body)?;
        out.packets.push(packet)?;
        Ok(())
    }

    /// Something happens to the member, behind what happened before; a payload that it carries has at most `PAYLOAD` bytes. After an error for want of memory nothing is said of the output.
    pub fn record(&self, event: Event, out: &mut Output) -> Result<(), AllocError>
        requires short { IsShort event }
        ensures { OnOk result (Grows self.now.group out.old out.new [] (event ∷ [])) }
    {
        out.events.push(event)?;
        let _ = &self.group;
        Ok(())
    }

    /// Whether a packet is for this member: of its group, to its address, from another.
    pub fn is_for(&self, packet: &Packet<'_>) -> bool
        ensures { result ≡ is_for self.now.address self.now.group packet.now }
    {
        self.group.is(&packet.group)
            && packet.destination == self.address
            && packet.source != self.address
    }
}
