//! Packets from bytes.

ghost use Rattle.std.specs.Prelude.{◌≡◌, Ok, Some, IfOk, IfErr};
ghost use Rattle.wire_values.specs.Reading.{IsRead};
ghost use Rattle.wire_values.specs.declared.packet.Packet.{Packet as PacketValue};
ghost use Rattle.wire.specs.Packets.{redirect_at, forward_at, order_at, nak_at, ack_at, status_at, flush_at, behind_at, reported_at, installed_at, merge_at, sent_state_at, body_at, front_at, packet_at, packet_of, Spells, wire_refusal};

use address::limits::{DATAGRAM, GREATEST_NUMBER, KINDS, MAGIC, VERSION, WINDOW};
use wire_values::{
    Body, Missing, Packet, Progress, Reader, WireError, chunk_at, count_at, entry_at, group_at,
    install_at, number_at, payload_at, report_at, view_at,
};

#[tactic(auto, unfolding(crate::specs::Packets::redirect_at))]
fn redirect_at<'a>(from: &mut Reader<'a>) -> Result<Body<'a>, WireError>
    ensures { IsRead (λ x. (x, from.new)) result (redirect_at from.old) }
{
    let coordinator = from.address()?;
    Ok(Body::Redirect(coordinator))
}

#[tactic(auto, unfolding(crate::specs::Packets::forward_at))]
fn forward_at<'a>(from: &mut Reader<'a>) -> Result<Body<'a>, WireError>
    ensures { IsRead (λ x. (x, from.new)) result (forward_at from.old) }
{
    let view = from.view_id()?;
    let number = number_at(1, GREATEST_NUMBER, from)?;
    let payload = payload_at(from)?;
    Ok(Body::Forward {
        view,
        number,
        payload,
    })
}

#[tactic(auto, unfolding(crate::specs::Packets::order_at))]
fn order_at<'a>(from: &mut Reader<'a>) -> Result<Body<'a>, WireError>
    ensures { IsRead (λ x. (x, from.new)) result (order_at from.old) }
{
    let view = from.view_id()?;
    let place = number_at(1, GREATEST_NUMBER, from)?;
    let entry = entry_at(from)?;
    Ok(Body::Order { view, place, entry })
}

#[tactic(auto, unfolding(crate::specs::Packets::nak_at))]
fn nak_at<'a>(from: &mut Reader<'a>) -> Result<Body<'a>, WireError>
    ensures { IsRead (λ x. (x, from.new)) result (nak_at from.old) }
{
    let view = from.view_id()?;
    let first = number_at(1, GREATEST_NUMBER, from)?;
    let last = number_at(first.get(), GREATEST_NUMBER, from)?;
    match Missing::new(first, last) {
        Some(missing) => Ok(Body::Nak { view, missing }),
        None => Err(WireError::Value),
    }
}

#[tactic(auto, unfolding(crate::specs::Packets::ack_at))]
fn ack_at<'a>(from: &mut Reader<'a>) -> Result<Body<'a>, WireError>
    ensures { IsRead (λ x. (x, from.new)) result (ack_at from.old) }
{
    let view = from.view_id()?;
    let delivered = count_at(0, GREATEST_NUMBER, from)?;
    Ok(Body::Ack { view, delivered })
}

#[tactic(auto, unfolding(crate::specs::Packets::status_at))]
fn status_at<'a>(from: &mut Reader<'a>) -> Result<Body<'a>, WireError>
    ensures { IsRead (λ x. (x, from.new)) result (status_at from.old) }
{
    let view = from.view_id()?;
    let highest = count_at(0, GREATEST_NUMBER, from)?;
    let least = highest.get().saturating_sub(WINDOW);
    let stable = count_at(least, highest.get(), from)?;
    match Progress::new(highest, stable) {
        Some(progress) => Ok(Body::Status { view, progress }),
        None => Err(WireError::Value),
    }
}

#[tactic(auto, unfolding(crate::specs::Packets::flush_at))]
fn flush_at<'a>(from: &mut Reader<'a>) -> Result<Body<'a>, WireError>
    ensures { IsRead (λ x. (x, from.new)) result (flush_at from.old) }
{
    let proposal = view_at(from)?;
    Ok(Body::Flush(proposal))
}

#[tactic(auto, unfolding(crate::specs::Packets::behind_at))]
fn behind_at<'a>(from: &mut Reader<'a>) -> Result<Body<'a>, WireError>
    ensures { IsRead (λ x. (x, from.new)) result (behind_at from.old) }
{
    let proposal = from.view_id()?;
    let counter = number_at(1, GREATEST_NUMBER, from)?;
    Ok(Body::Behind { proposal, counter })
}

#[tactic(auto, unfolding(crate::specs::Packets::reported_at))]
fn reported_at<'a>(from: &mut Reader<'a>) -> Result<Body<'a>, WireError>
    ensures { IsRead (λ x. (x, from.new)) result (reported_at from.old) }
{
    let proposal = from.view_id()?;
    let report = report_at(from)?;
    Ok(Body::Report { proposal, report })
}

#[tactic(auto, unfolding(crate::specs::Packets::installed_at))]
fn installed_at<'a>(from: &mut Reader<'a>) -> Result<Body<'a>, WireError>
    ensures { IsRead (λ x. (x, from.new)) result (installed_at from.old) }
{
    let install = install_at(from)?;
    Ok(Body::Install(install))
}

#[tactic(auto, unfolding(crate::specs::Packets::merge_at))]
fn merge_at<'a>(from: &mut Reader<'a>) -> Result<Body<'a>, WireError>
    ensures { IsRead (λ x. (x, from.new)) result (merge_at from.old) }
{
    let view = view_at(from)?;
    Ok(Body::Merge(view))
}

#[tactic(auto, unfolding(crate::specs::Packets::sent_state_at))]
fn sent_state_at<'a>(from: &mut Reader<'a>) -> Result<Body<'a>, WireError>
    ensures { IsRead (λ x. (x, from.new)) result (sent_state_at from.old) }
{
    let proposal = from.view_id()?;
    let chunk = chunk_at(from)?;
    Ok(Body::State { proposal, chunk })
}

#[tactic(auto, unfolding(crate::specs::Packets::body_at))]
fn body_at<'a>(kind: u8, from: &mut Reader<'a>) -> Result<Body<'a>, WireError>
    ensures { IsRead (λ x. (x, from.new)) result (body_at kind from.old) }
{
    match kind {
        1 => Ok(Body::Join),
        2 => redirect_at(from),
        3 => Ok(Body::Leave),
        4 => forward_at(from),
        5 => order_at(from),
        6 => nak_at(from),
        7 => ack_at(from),
        8 => status_at(from),
        9 => flush_at(from),
        10 => behind_at(from),
        11 => reported_at(from),
        12 => installed_at(from),
        13 => merge_at(from),
        14 => sent_state_at(from),
        _ => Err(WireError::Kind),
    }
}

// What every packet begins with: the kind is answered.
#[tactic(auto, unfolding(crate::specs::Packets::front_at))]
fn front_at(from: &mut Reader<'_>) -> Result<u8, WireError>
    ensures { IsRead (λ x. (x, from.new)) result (front_at from.old) }
{
    let _ = from.u16(MAGIC, MAGIC, WireError::NotOurs)?;
    let _ = from.u8(VERSION, VERSION, WireError::Version)?;
    from.u8(1, KINDS, WireError::Kind)
}

#[tactic(auto, unfolding(crate::specs::Packets::packet_at))]
fn packet_at<'a>(from: &mut Reader<'a>) -> Result<Packet<'a>, WireError>
    ensures { IsRead (λ x. (x, from.new)) result (packet_at from.old) }
{
    let kind = front_at(from)?;
    let group = group_at(from)?;
    let source = from.address()?;
    let destination = from.address()?;
    let body = body_at(kind, from)?;
    Ok(Packet {
        group,
        source,
        destination,
        body,
    })
}

#[tactic(auto, unfolding(crate::specs::Packets::packet_of))]
fn whole(bytes: &[u8]) -> Result<Packet<'_>, WireError>
    ensures { result ≡ packet_of bytes.now }
{
    if bytes.len() > DATAGRAM {
        return Err(WireError::Length);
    }
    let mut from = Reader::new(bytes);
    let packet = packet_at(&mut from)?;
    if !from.rest().is_empty() {
        return Err(WireError::Trailing);
    }
    Ok(packet)
}

/// The packet that these bytes spell, or the refusal of the first field that fails. Takes no memory.
pub fn decode(bytes: &[u8]) -> Result<Packet<'_>, WireError>
    // A packet is answered only where the bytes spell it,
    ensures found { IfOk result (λ p. Spells p bytes.now) }
    // and wherever they spell one;
    ensures only { (p : PacketValue) → Spells p bytes.now → result ≡ Ok p }
    // else the grammar's refusal of them.
    ensures refused { IfErr result (λ e. wire_refusal bytes.now ≡ Some e) }
    ensures exact { result ≡ packet_of bytes.now }
{
    whole(bytes)
}
