//! The lines of packets as text (docs/FORMATS.md, "The packets' lines").

ghost use Rattle.std.specs.Prelude.{◌≡◌, ◌++◌, ℕ, take, IfOk, OnOk, OnErr};
ghost use Rattle.std.specs.List.{concat};
ghost use Rattle.std.specs.Fmt.{decimal};
ghost use Rattle.wire.specs.Packets.{packet_of};
ghost use Rattle.vsync_text.specs.TraceText.{GoesOnFrom};
ghost use Rattle.vsync_text.specs.PacketText.{kind_name, kind_in, packet_fields, packet_line, packet_lines};

use crate::append::put_hex_behind;
use crate::{Part, put, put_parts};
use address::Bytes;
use std::alloc::AllocError;
use wire::decode;
use wire_values::Body;

/// The name of what a packet says.
fn kind_name(body: &Body<'_>) -> &'static [u8]
    ensures { result.now ≡ kind_name body.now }
{
    match body {
        Body::Join => b"JOIN",
        Body::Redirect(_) => b"REDIRECT",
        Body::Leave => b"LEAVE",
        Body::Forward { .. } => b"FORWARD",
        Body::Order { .. } => b"ORDER",
        Body::Nak { .. } => b"NAK",
        Body::Ack { .. } => b"ACK",
        Body::Status { .. } => b"STATUS",
        Body::Flush(_) => b"FLUSH",
        Body::Behind { .. } => b"BEHIND",
        Body::Report { .. } => b"REPORT",
        Body::Install(_) => b"INSTALL",
        Body::Merge(_) => b"MERGE",
        Body::State { .. } => b"STATE",
    }
}

/// Appends the number of a packet, and behind it what bytes say as one, who sent it and to whom, `-` for each where they spell none. Answers the first of these.
fn put_front(out: &mut Vec<u8>, number: u64, bytes: &[u8]) -> Result<&'static [u8], AllocError>
    ensures text { OnOk result (out.new.items ≡ out.old.items ++ (decimal number ++ packet_fields (packet_of bytes.now))) }
    ensures kind { IfOk result (λ kind. kind.now ≡ kind_in bytes.now) }
    ensures kept { GoesOnFrom out.old.items out.new.items }
{
    match decode(bytes) {
        Ok(packet) => {
            let kind = kind_name(&packet.body);
            let parts = [
                Part::Number(number),
                Part::Text(b" "),
                Part::Text(kind),
                Part::Text(b" "),
                Part::Address(packet.source),
                Part::Text(b" "),
                Part::Address(packet.destination),
            ];
            put_parts(out, &parts)?;
            Ok(kind)
        }
        Err(_) => {
            put_parts(out, &[Part::Number(number), Part::Text(b" - - -")])?;
            Ok(b"-")
        }
    }
}

/// Appends the line of a packet or a part of it, and answers its kind.
fn put_packet(out: &mut Vec<u8>, number: u64, bytes: &[u8]) -> Result<&'static [u8], AllocError>
    ensures text { OnOk result (out.new.items ≡ out.old.items ++ packet_line number bytes.now) }
    ensures kind { IfOk result (λ kind. kind.now ≡ kind_in bytes.now) }
    ensures kept { GoesOnFrom out.old.items out.new.items }
{
    let kind = put_front(out, number, bytes)?;
    put_hex_behind(out, b' ', bytes)?;
    put(out, b"\n")?;
    Ok(kind)
}

/// Appends the line of the packet of a number with its line feed, as `1 JOIN 2.1 1.1 5653..`. Bytes that spell no packet have `-` in the
/// place of its kind and of both addresses. Answers the kind, as the line has it.
///
/// # Errors
///
/// Where memory is refused, the buffer is left as it was.
pub fn append_packet(
    out: &mut Vec<u8>,
    number: u64,
    bytes: &[u8],
) -> Result<&'static [u8], AllocError>
    ensures text { OnOk result (out.new.items ≡ out.old.items ++ packet_line number bytes.now) }
    ensures kind { IfOk result (λ kind. kind.now ≡ kind_in bytes.now) }
    ensures err { OnErr result (out.new.items ≡ out.old.items) }
{
    let before = out.len();
    let result = put_packet(out, number, bytes);
    if result.is_err() {
        out.truncate(before);
    }
    result
}

/// Appends the lines of packets, numbered from 1.
///
/// # Errors
///
/// Where memory is refused, the lines of the first few packets stand there.
pub fn append_packets(out: &mut Vec<u8>, packets: &[Bytes]) -> Result<(), AllocError>
    ensures ok { OnOk result (out.new.items ≡ out.old.items ++ concat (packet_lines packets.now)) }
    ensures err { OnErr result ((count : ℕ) × (out.new.items ≡ out.old.items ++ concat (take count (packet_lines packets.now)))) }
{
    let mut number = 0;
    for packet in packets {
        number += 1;
        append_packet(out, number, packet.as_slice())?;
    }
    Ok(())
}
