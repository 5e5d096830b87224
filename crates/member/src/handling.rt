//! What a member does by each input. After its end it answers 6; want of memory ends it.

ghost use Rattle.std.specs.Prelude.{◌≡◌, Some, None, Ok, IfOk};
ghost use Rattle.address.specs.declared.refusal.Refusal.TheVariants as refusal;
ghost use Rattle.member.specs.declared.error.Error.TheVariants as error;
ghost use Rattle.member.specs.Running.{IsAlive};
ghost use Rattle.member.specs.declared.input.Input.TheVariants as input;
ghost use Rattle.member.specs.Handling.{Handled};
ghost use Rattle.member.specs.Sources.{heard_in, heard_of, output_of};
ghost use Rattle.step_output.specs.Steps.{who_of};

use crate::heard::about;
use crate::hearing::{pass_time, take_packet};
use crate::{Error, Heard, Taken};
use address::Address;
use address::limits::Refusal;
use member_rules::{announce_view, ask, create, leave, on_suspect, send, sendable};
use membership::MemberState;
use state_transfer::Receiver;
use step_output::{Identity, Output};
use wire::decode;
use wire_values::Packet;

// Ends the member, which was refused memory, and answers that.
fn end_without_memory<R: Receiver>(member_state: &mut Option<MemberState<R>>) -> Error
    ensures ended { member_state.new ≡ None }
    ensures memory { result ≡ error.Refused refusal.Memory }
{
    *member_state = None;
    Error::Refused(Refusal::Memory)
}

// It makes a group of itself alone.
pub(crate) fn create_group<R: Receiver>(
    member_state: &mut Option<MemberState<R>>,
    who: &Identity,
) -> Result<Output, Error>
    requires alive { IsAlive (who_of who.now) member_state.old }
    ensures { Handled R.meaning (record { address = who.now.address; group = who.now.group; member_state = member_state.old }) input.Create result (record { address = who.now.address; group = who.now.group; member_state = member_state.new }) }
{
    let Some(running) = member_state else {
        return Err(Error::Refused(Refusal::Closed));
    };
    if running.is_connected() {
        return Err(Error::Refused(Refusal::AlreadyConnected));
    }
    let mut out = Output::nothing(who.alloc);
    match create(running, who, &mut out) {
        Ok(()) => Ok(out),
        Err(_) => Err(end_without_memory(member_state)),
    }
}

// It asks a contact to be let in.
pub(crate) fn join_group<R: Receiver>(
    member_state: &mut Option<MemberState<R>>,
    who: &Identity,
    contact: Address,
) -> Result<Output, Error>
    requires alive { IsAlive (who_of who.now) member_state.old }
    ensures { Handled R.meaning (record { address = who.now.address; group = who.now.group; member_state = member_state.old }) (input.Join contact) result (record { address = who.now.address; group = who.now.group; member_state = member_state.new }) }
{
    let Some(running) = member_state else {
        return Err(Error::Refused(Refusal::Closed));
    };
    if running.view_state.is_some() {
        return Err(Error::Refused(Refusal::AlreadyConnected));
    }
    let mut out = Output::nothing(who.alloc);
    match ask(running, who, contact, &mut out) {
        Ok(()) => Ok(out),
        Err(_) => Err(end_without_memory(member_state)),
    }
}

// It sends a message.
pub(crate) fn send_message<R: Receiver>(
    member_state: &mut Option<MemberState<R>>,
    who: &Identity,
    payload: &[u8],
) -> Result<Output, Error>
    requires alive { IsAlive (who_of who.now) member_state.old }
    ensures { Handled R.meaning (record { address = who.now.address; group = who.now.group; member_state = member_state.old }) (input.Send payload.entry) result (record { address = who.now.address; group = who.now.group; member_state = member_state.new }) }
{
    let Some(running) = member_state else {
        return Err(Error::Refused(Refusal::Closed));
    };
    let payload = match sendable(running, payload) {
        Ok(payload) => payload,
        Err(refusal) => return Err(Error::Refused(refusal)),
    };
    let mut out = Output::nothing(who.alloc);
    match send(running, who, &payload, &mut out) {
        Ok(()) => Ok(out),
        Err(_) => Err(end_without_memory(member_state)),
    }
}

// What a packet was, where it is for the member.
fn heard_in(who: &Identity, packet: &Packet<'_>) -> Option<Heard>
    ensures { result ≡ heard_in who.now.address who.now.group (Ok packet.now) }
{
    if who.is_for(packet) {
        Some(Heard {
            source: packet.source,
            kind: packet.body.kind(),
            about: about(&packet.body),
        })
    } else {
        None
    }
}

// A datagram came. It is read here, and nowhere else.
pub(crate) fn take_datagram<R: Receiver>(
    member_state: &mut Option<MemberState<R>>,
    who: &Identity,
    bytes: &[u8],
) -> Result<Taken, Error>
    requires alive { IsAlive (who_of who.now) member_state.old }
    ensures handled { Handled R.meaning (record { address = who.now.address; group = who.now.group; member_state = member_state.old }) (input.Datagram bytes.entry) (output_of result) (record { address = who.now.address; group = who.now.group; member_state = member_state.new }) }
    ensures heard { IfOk result (λ taken. taken.heard ≡ heard_of who.now.address who.now.group bytes.now) }
{
    let Some(running) = member_state else {
        return Err(Error::Refused(Refusal::Closed));
    };
    match decode(bytes) {
        Err(refusal) => Err(Error::Wire(refusal)),
        Ok(packet) => {
            let mut out = Output::nothing(who.alloc);
            match take_packet(running, who, &packet, &mut out) {
                Ok(()) => Ok(Taken {
                    out,
                    heard: heard_in(who, &packet),
                }),
                Err(stop) => {
                    *member_state = None;
                    Err(Error::from(stop))
                }
            }
        }
    }
}

// Time passes.
pub(crate) fn tick<R: Receiver>(
    member_state: &mut Option<MemberState<R>>,
    who: &Identity,
) -> Result<Output, Error>
    requires alive { IsAlive (who_of who.now) member_state.old }
    ensures { Handled R.meaning (record { address = who.now.address; group = who.now.group; member_state = member_state.old }) input.Tick result (record { address = who.now.address; group = who.now.group; member_state = member_state.new }) }
{
    let Some(running) = member_state else {
        return Err(Error::Refused(Refusal::Closed));
    };
    let mut out = Output::nothing(who.alloc);
    match pass_time(running, who, &mut out) {
        Ok(()) => Ok(out),
        Err(_) => Err(end_without_memory(member_state)),
    }
}

// Its failure detector suspects an address.
pub(crate) fn suspect<R: Receiver>(
    member_state: &mut Option<MemberState<R>>,
    who: &Identity,
    address: Address,
) -> Result<Output, Error>
    requires alive { IsAlive (who_of who.now) member_state.old }
    ensures { Handled R.meaning (record { address = who.now.address; group = who.now.group; member_state = member_state.old }) (input.Suspect address) result (record { address = who.now.address; group = who.now.group; member_state = member_state.new }) }
{
    let Some(running) = member_state else {
        return Err(Error::Refused(Refusal::Closed));
    };
    let mut out = Output::nothing(who.alloc);
    match on_suspect(running, who, address, &mut out) {
        Ok(()) => Ok(out),
        Err(_) => Err(end_without_memory(member_state)),
    }
}

// A member of another view may be at an address.
pub(crate) fn merge_hint<R: Receiver>(
    member_state: &mut Option<MemberState<R>>,
    who: &Identity,
    address: Address,
) -> Result<Output, Error>
    requires alive { IsAlive (who_of who.now) member_state.old }
    ensures { Handled R.meaning (record { address = who.now.address; group = who.now.group; member_state = member_state.old }) (input.MergeHint address) result (record { address = who.now.address; group = who.now.group; member_state = member_state.new }) }
{
    let Some(running) = member_state else {
        return Err(Error::Refused(Refusal::Closed));
    };
    let mut out = Output::nothing(who.alloc);
    match announce_view(running, who, address, &mut out) {
        Ok(()) => Ok(out),
        Err(_) => Err(end_without_memory(member_state)),
    }
}

// It leaves the group, and ends.
pub(crate) fn leave_group<R: Receiver>(
    member_state: &mut Option<MemberState<R>>,
    who: &Identity,
) -> Result<Output, Error>
    requires alive { IsAlive (who_of who.now) member_state.old }
    ensures { Handled R.meaning (record { address = who.now.address; group = who.now.group; member_state = member_state.old }) input.Leave result (record { address = who.now.address; group = who.now.group; member_state = member_state.new }) }
{
    let Some(running) = member_state.take() else {
        return Err(Error::Refused(Refusal::Closed));
    };
    let mut out = Output::nothing(who.alloc);
    match leave(&running, who, &mut out) {
        Ok(()) => Ok(out),
        Err(_) => Err(Error::Refused(Refusal::Memory)),
    }
}
